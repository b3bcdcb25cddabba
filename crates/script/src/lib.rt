// Section 7: a script, from the bytes that are read to the text that is printed.
#![tactic(auto)]

ghost use Rattle.std.specs.Prelude.{◌≡◌, ◌*◌, ◌-◌, ◌<◌, ◌≤◌, length};
ghost use Rattle.rules.specs.Script.{most_bytes, run_text, script_text};
ghost use Rattle.script.specs.Header.{header_of};
ghost use Rattle.script.specs.Text.{Adds, line_most, room};
ghost use Rattle.script.specs.Run.{lines_at, text_most, printed, Printed};

mod header;
mod operation;
mod text;

use header::Header;
use rules::{RAM_BYTES, Ram, Read, State, Table};
use text::Text;

const MOST_BYTES: usize = 65536;
// Enough for the text of any script: the lines of set-up, and a line for each byte behind the shortest header.
pub const MOST_TEXT: usize = 2357586;

// The lines of the operations from a place on, to the end or to one that is unknown or cut. Each turn needs the state that the last one left.
#[tactic(auto, using(crate::proofs::Lines::whole_within, crate::proofs::Lines::cut_within, crate::proofs::Texts::line_most_lem))]
fn put_lines(
    input: &[u8],
    mut place: usize,
    ram: &mut Ram,
    table: &Table,
    text: &mut Text,
    mut state: State,
)
    requires within { place ≤ length input.now }
    requires counted { length input.now - place < 65535 }
    requires room { line_most * (length input.now - place) ≤ room text.old }
    ensures { Adds text.old text.new (lines_at input.now table.now state ram.old place 1) }
{
    let mut count: u16 = 1;
    loop {
        match operation::operation_at(input, place) {
            Read::End => return,
            Read::Cut => return text.push(b"cut\n"),
            Read::Whole(op, next) => {
                let outcome = runtime::operate(state, ram, table, op);
                text.line(count, outcome);
                state = outcome.state;
                place = next;
                count += 1;
            }
        }
    }
}

// Set-up and, if it is done, the operations. RAM is its own.
#[tactic(auto, using(crate::proofs::Texts::set_up_most_lem))]
fn put_run(input: &[u8], header: Header, text: &mut Text)
    requires told { Some header ≡ header_of input.now }
    requires not_longer { length input.now ≤ most_bytes }
    requires room { text_most ≤ room text.old }
    ensures { Adds text.old text.new (run_text input.now) }
{
    let mut ram: Ram = [0; RAM_BYTES];
    let outcome = runtime::set_up(header.config, &mut ram);
    text.set_up(outcome);
    if outcome.answer.is_ok() {
        put_lines(
            input,
            header.operations,
            &mut ram,
            &header.table,
            text,
            outcome.state,
        );
    }
}

// What the program prints for this input.
#[tactic(auto, unfolding(rules::specs::Script::script_text))]
fn put_script(input: &[u8], text: &mut Text)
    requires { text_most ≤ room text.old }
    ensures { Adds text.old text.new (script_text input.now) }
{
    if input.len() > MOST_BYTES {
        text.push(b"long\n");
    } else if let Some(header) = Header::parse(input) {
        put_run(input, header, text);
    } else {
        text.push(b"bad\n");
    }
}

// Writes to out what the program prints for this input, and answers how many bytes that is. RAM and the jump table are its own. Where out
// has fewer than MOST_TEXT bytes it writes nothing: a count and no Option, since 0 is what its contract, printed, then says.
#[tactic(auto, using(crate::proofs::Runs::printed_whole), unfolding(crate::specs::Run::printed))]
pub fn run(input: &[u8], out: &mut [u8]) -> usize
    ensures { Printed out.old out.new (printed input.now (length out.old)) result }
{
    if out.len() < MOST_TEXT {
        return 0;
    }
    let mut text = Text::new(out);
    put_script(input, &mut text);
    text.len()
}
