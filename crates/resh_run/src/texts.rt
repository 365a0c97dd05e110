//! The fixed texts. They need no memory.

ghost use Rattle.std.specs.Prelude.{◌≡◌};
ghost use Rattle.resh_run.specs.Top.{usage_text, too_long_text, read_fault_text, no_memory_text};

pub(crate) fn usage() -> &'static [u8]
    ensures { result.now ≡ usage_text }
{
    b"usage: reshard plain | check | run --workers N | generate N [--print]\n"
}

pub(crate) fn too_long() -> &'static [u8]
    ensures { result.now ≡ too_long_text }
{
    b"refused: too long, limit 67108864\n"
}

pub(crate) fn read_fault() -> &'static [u8]
    ensures { result.now ≡ read_fault_text }
{
    b"read fault\n"
}

pub(crate) fn no_memory() -> &'static [u8]
    ensures { result.now ≡ no_memory_text }
{
    b"no memory\n"
}
