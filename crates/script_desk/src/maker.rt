//! Which make made a slot.
ghost use Rattle.std.specs.Prelude.{◌≡◌, string_bytes};
ghost use Rattle.script_desk.specs.Desks.{Maker};

use std::marker::Model;

/// A make: its number, and the name that it bound.
#[derive(Drop)]
pub struct Make {
    pub number: u64,
    pub name: String,
}

impl Model for Make {
    ghost Value = { Maker };

    ghost view = { λ m. record { number = m.number; name = string_bytes m.name } };
}

impl Make {
    /// The number of the make.
    pub fn number(&self) -> u64
        ensures { result ≡ self.now.number }
    {
        self.number
    }

    /// The name that the make bound.
    pub fn name(&self) -> &str
        ensures { result.now ≡ self.now.name }
    {
        self.name.as_str()
    }
}
