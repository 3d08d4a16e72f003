//! The operations that are timed.
ghost use Rattle.std.specs.Prelude.{◌≡◌};
ghost use Rattle.region_turns.specs.Turns.{turns_of};

/// What a thread does in each of its turns.
#[derive(Clone, Copy, PartialEq, Eq, Debug, Drop)]
pub enum RegionOperation {
    /// Opens a region, looks at one cell and reads a word of what it holds, and closes the region.
    LookOnce,
    /// Opens a region, looks at ten cells and reads a word of what each holds, and closes the region.
    LookTenTimes,
    /// Makes an object, and stores it into one of the cells, which a sequence draws. Every 64th turn ends with a flush.
    Store,
}

/// All operations, in the order in which they are printed.
pub const REGION_OPERATIONS: [RegionOperation; 3] = [
    RegionOperation::LookOnce,
    RegionOperation::LookTenTimes,
    RegionOperation::Store,
];

impl RegionOperation {
    /// Its name in the line that is printed.
    pub fn name(self) -> &'static str {
        match self {
            RegionOperation::LookOnce => "region1",
            RegionOperation::LookTenTimes => "region10",
            RegionOperation::Store => "region_store",
        }
    }

    /// How many turns a thread makes: fewer where a turn looks ten times, or makes an object.
    pub fn turns(self) -> u32
        ensures { result ≡ turns_of self }
    {
        match self {
            RegionOperation::LookOnce => 1_000_000,
            RegionOperation::LookTenTimes | RegionOperation::Store => 250_000,
        }
    }
}
