//! What the values of an option mean. Of an option that comes twice there are two values, which mean nothing.
ghost use Rattle.std.specs.Prelude.{◌≡◌, ℕ, Bool, IfSome, IsNone, codes, map, true};
ghost use Rattle.std.specs.declared.option.Option.{Option as Maybe};
ghost use Rattle.command_line.specs.Found.{found_under};
ghost use Rattle.command_line.specs.Values.{IsLanes, IsProtect, IsQueue, IsRounds, IsSlots, SuitsQueue};
ghost use Rattle.run_requests.specs.declared.asked.Protect.{Protect as Kept};

use crate::numbers::{number_or, number_within};
use clap::ArgMatches;
use plain_state::MOST_SLOTS;
use run_requests::Protect;

/// How many lanes the values of `--lanes` mean. None exactly where they mean none.
pub(crate) fn lanes(matches: &ArgMatches<'_>) -> Option<u32>
    ensures found { IfSome result (IsLanes (found_under (codes "lanes") matches.now)) }
    ensures none { IsNone result → (n : ℕ) →
        IsLanes (found_under (codes "lanes") matches.now) n → ⊥ }
{
    Some(number_or(2, 1, 31, matches.get_raw("lanes").unwrap_or(&[]))? as u32)
}

/// How many rounds the values of `--rounds` mean. None exactly where they mean none.
pub(crate) fn rounds(matches: &ArgMatches<'_>) -> Option<u64>
    ensures found { IfSome result (IsRounds (found_under (codes "rounds") matches.now)) }
    ensures none { IsNone result → (n : ℕ) →
        IsRounds (found_under (codes "rounds") matches.now) n → ⊥ }
{
    number_or(1, 1, 1_000, matches.get_raw("rounds").unwrap_or(&[]))
}

/// How many slots the values of `--slots` mean, if there are any. None exactly where they mean nothing.
pub(crate) fn slots(matches: &ArgMatches<'_>) -> Option<Option<u32>>
    ensures found { IfSome result (IsSlots (found_under (codes "slots") matches.now)) }
    ensures none { IsNone result → (n : Maybe ℕ) →
        IsSlots (found_under (codes "slots") matches.now) n → ⊥ }
{
    slots_of(matches.get_raw("slots").unwrap_or(&[]))
}

fn slots_of(values: &[&str]) -> Option<Option<u32>>
    ensures found { IfSome result (IsSlots (map (λ v. v.now) values.now)) }
    ensures none { IsNone result → (n : Maybe ℕ) → IsSlots (map (λ v. v.now) values.now) n → ⊥ }
{
    match values {
        [] => Some(None),
        [word] => Some(Some(number_within(word, 1, MOST_SLOTS as u64)? as u32)),
        _ => None,
    }
}

/// Whether the values of `--queue` mean a queue with double links. None exactly where they mean none.
pub(crate) fn double(matches: &ArgMatches<'_>) -> Option<bool>
    ensures found { IfSome result (IsQueue (found_under (codes "queue") matches.now)) }
    ensures none { IsNone result → (d : Bool) →
        IsQueue (found_under (codes "queue") matches.now) d → ⊥ }
{
    double_of(matches.get_raw("queue").unwrap_or(&[]))
}

fn double_of(values: &[&str]) -> Option<bool>
    ensures found { IfSome result (IsQueue (map (λ v. v.now) values.now)) }
    ensures none { IsNone result → (d : Bool) → IsQueue (map (λ v. v.now) values.now) d → ⊥ }
{
    match values {
        [] => Some(false),
        [word] => match *word {
            "linked" => Some(false),
            "double" => Some(true),
            _ => None,
        },
        _ => None,
    }
}

/// How the values of `--protect` say that what lanes read is kept. None exactly where they say nothing.
pub(crate) fn protect(matches: &ArgMatches<'_>) -> Option<Protect>
    ensures found { IfSome result (IsProtect (found_under (codes "protect") matches.now)) }
    ensures none { IsNone result → (p : Kept) →
        IsProtect (found_under (codes "protect") matches.now) p → ⊥ }
{
    protect_of(matches.get_raw("protect").unwrap_or(&[]))
}

fn protect_of(values: &[&str]) -> Option<Protect>
    ensures found { IfSome result (IsProtect (map (λ v. v.now) values.now)) }
    ensures none { IsNone result → (p : Kept) → IsProtect (map (λ v. v.now) values.now) p → ⊥ }
{
    match values {
        [] => Some(Protect::Announce),
        [word] => match *word {
            "announce" => Some(Protect::Announce),
            "epoch" => Some(Protect::Epoch),
            _ => None,
        },
        _ => None,
    }
}

/// Whether lanes whose reads are kept so may be given the values of `--queue`.
pub(crate) fn suits_queue(matches: &ArgMatches<'_>, protect: Protect) -> bool
    ensures suits { result ≡ true → SuitsQueue (found_under (codes "queue") matches.now) protect }
    ensures only { SuitsQueue (found_under (codes "queue") matches.now) protect → result ≡ true }
{
    match protect {
        Protect::Announce => true,
        Protect::Epoch => matches.get_raw("queue").unwrap_or(&[]).is_empty(),
    }
}
