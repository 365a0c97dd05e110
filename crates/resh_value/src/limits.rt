//! Limits that all crates share, and the bytes of a name that mean more than themselves.

ghost use Rattle.std.specs.Prelude.{◌≡◌};
ghost use Rattle.resh_value.specs.Limits.{text_limit, end_of_places, dot, dollar};

/// The most bytes of a stored document's text.
pub const TEXT_LIMIT: u32 = 16_384;

/// The first number that is no place of a feed and no position in a lane.
pub const END_OF_PLACES: u64 = 1 << 62;

/// It joins the names of a path.
pub const DOT: u8 = b'.';

/// It begins the names of tags and operators.
pub const DOLLAR: u8 = b'$';

/// The constants are those of the definitions.
pub fn limit_laws()
    ensures text { TEXT_LIMIT ≡ text_limit }
    ensures places { END_OF_PLACES ≡ end_of_places }
    ensures dot { DOT ≡ dot }
    ensures dollar { DOLLAR ≡ dollar }
{}
