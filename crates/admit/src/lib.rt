#![tactic(auto)]
// Which tape files are admitted, and why the others are not: refusals 1 to 7, the lowest first.
mod header;
mod labels;
mod names;
mod nodes;
mod reason;

ghost use Rattle.std.specs.Prelude.{◌≡◌, IfOk};
ghost use Rattle.tape.specs.File.{sections_of};
ghost use Rattle.admit.specs.Refusal.{Refusal, refusal_number};

pub use reason::Reason;
use tape::{Sections, TapeFile};

// The tape of a file, or why it is refused.
pub fn admit(file: &[u8]) -> Result<TapeFile<'_>, Reason>
    ensures number { Refusal file.now (refusal_number result) }
    ensures same_file { IfOk result (λ t. t.file ≡ file.entry) }
    ensures sections { IfOk result (λ t. t.sections ≡ sections_of file.now) }
{
    if !header::laid_out(file) {
        return Err(Reason::Layout);
    }
    if !header::small(file) {
        return Err(Reason::Limits);
    }
    let sections = Sections::of(file);
    let tape = TapeFile { file, sections };
    if !chars::is_utf8(tape.source()) {
        return Err(Reason::Source);
    }
    if !names::good_names(&tape) {
        return Err(Reason::Names);
    }
    if !nodes::good_nodes(&tape) {
        return Err(Reason::Nodes);
    }
    if nest::nests(&tape) {
        return Ok(tape);
    }
    if nest::too_deep(&tape) {
        return Err(Reason::Depth);
    }
    Err(Reason::Nesting)
}
