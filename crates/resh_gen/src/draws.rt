//! The numbers that a setup is made of.

ghost use Rattle.std.specs.Prelude.{◌≡◌, ◌<◌, ◌/◌, ◌%◌, ◌^◌};
ghost use Rattle.resh_gen.specs.Draws.{next};

/// Numbers drawn one after another.
#[derive(Debug, Drop, Clone, Copy)]
pub(crate) struct Draws {
    state: u64,
}

impl Draws {
    pub(crate) fn new(number: u32) -> Draws
        ensures { result.state ≡ number }
    {
        Draws {
            state: number as u64,
        }
    }

    /// The next number.
    fn draw(&mut self) -> u64
        ensures drawn { result ≡ next self.old.state / 2 ^ 33 }
        ensures state { self.new.state ≡ next self.old.state }
    {
        self.state = self
            .state
            .wrapping_mul(6_364_136_223_846_793_005)
            .wrapping_add(1_442_695_040_888_963_407);
        self.state / 8_589_934_592
    }

    /// The next number, counted again from 0 after each thousand.
    pub(crate) fn below_thousand(&mut self) -> u32
        ensures drawn { result ≡ next self.old.state / 2 ^ 33 % 1000 }
        ensures state { self.new.state ≡ next self.old.state }
        ensures below { result < 1000 }
    {
        (self.draw() % 1000) as u32
    }

    /// The next number, counted again from 0 after each four.
    pub(crate) fn below_four(&mut self) -> u32
        ensures drawn { result ≡ next self.old.state / 2 ^ 33 % 4 }
        ensures state { self.new.state ≡ next self.old.state }
        ensures below { result < 4 }
    {
        (self.draw() % 4) as u32
    }
}
