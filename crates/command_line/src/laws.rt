//! What holds of the definitions themselves.

ghost use Rattle.std.specs.Prelude.{◌≡◌, List, true};
ghost use Rattle.std.specs.declared.option.Option.{Option as Maybe};
ghost use Rattle.command_line.specs.Found.{are_names};
ghost use Rattle.command_line.specs.Parts.{IsLine, Part, Text};
ghost use Rattle.command_line.specs.Requests.{Asks, IsSame};
ghost use Rattle.run_requests.specs.declared.asked.Request.{Request as Asked};

/// The words after a command are read in one way: they are one list of parts at most, and one of later operands.
pub fn line_is_one()
    ensures { (options words : List Text) (parts others : List Part) (later last : Maybe (List Text))
        → are_names options ≡ true → IsLine options words parts later
        → IsLine options words others last → (parts ≡ others) × (later ≡ last) }
{}

/// A line asks for one request at most, so that the one that is found is the one that is asked for.
pub fn request_is_one()
    ensures { (line : List Text) (asked other : Asked)
        → Asks line asked → Asks line other → IsSame asked other }
{}
