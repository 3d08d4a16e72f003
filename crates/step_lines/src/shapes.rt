//! The line of a shape.
ghost use Rattle.std.specs.Prelude.{◌≡◌, IfOk, Err};
ghost use Rattle.core_events.specs.declared.shape.Shape.{Shape as AnyShape};
ghost use Rattle.line_words.specs.Words.{texts_of};
ghost use Rattle.step_lines.specs.Beyond.{IsBeyondShape};
ghost use Rattle.step_lines.specs.Spelling.{SpellsShape};
ghost use Rattle.step_lines.specs.declared.refused.EventRefused.TheVariants.{Syntax, Range};

use crate::arguments::parse_number;
use crate::both::both;
use crate::refused::EventRefused;
use core_events::Shape;

/// The shape that the words spell, `shape SEATS SLOTS CELLS WEAKCELLS BATCH`. They are refused as syntax exactly where
/// they spell none, and else as a range where one of its numbers is 2^32 or more. Linear in the bytes.
pub fn shape_line(words: &[&[u8]]) -> Result<Shape, EventRefused>
    ensures ok { IfOk result (λ z. SpellsShape (texts_of words.now) z) }
    ensures syntax { result ≡ Err Syntax →
        (z : AnyShape) → SpellsShape (texts_of words.now) z → ⊥ }
    ensures range { result ≡ Err Range →
        (z : AnyShape) × SpellsShape (texts_of words.now) z × IsBeyondShape z }
{
    let [name, seats, slots, cells, weak_cells, batch] = words else {
        return Err(EventRefused::Syntax);
    };
    if *name != b"shape".as_slice() {
        return Err(EventRefused::Syntax);
    }
    let rest = both(parse_number(weak_cells), parse_number(batch));
    let rest = both(parse_number(cells), rest);
    let rest = both(parse_number(slots), rest);
    let (seats, (slots, (cells, (weak_cells, batch)))) = both(parse_number(seats), rest)?;
    Ok(Shape {
        seats,
        slots,
        cells,
        weak_cells,
        batch,
    })
}
