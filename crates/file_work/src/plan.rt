//! How contents are counted.
ghost use Rattle.std.specs.Prelude.{◌≡◌};
ghost use Rattle.file_work.specs.Limits.{plan_of};

use queue_law::Form;
use run_requests::WordsArgs;

/// How the words of some contents are to be counted.
#[derive(Clone, Copy, Drop)]
pub struct Plan {
    /// 1 to 31.
    pub lanes: u32,
    /// 1 to 1,000.
    pub rounds: u64,
    /// 1 to 4,194,304. Where there are none, there are as many as the words need, at most one for each object that is
    /// made.
    pub slots: Option<u32>,
    /// With how many slots a count begins where none are asked for, raised to 1 and lowered to as many as always serve;
    /// with a guess by the words where this is none.
    pub first: Option<u32>,
    /// The queue's, where lanes use one.
    pub form: Form,
}

/// The plan that the words of a command line tell.
pub fn plan_of(args: &WordsArgs) -> Plan
    ensures { result ≡ plan_of args.now }
{
    Plan {
        lanes: args.lanes,
        rounds: args.rounds,
        slots: args.slots,
        first: None,
        form: if args.double {
            Form::Double
        } else {
            Form::Linked
        },
    }
}
