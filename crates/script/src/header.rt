// The header of a script: its mark and version, the configuration, and the pairs of the jump table.
ghost use Rattle.std.specs.Prelude.{◌≡◌};
ghost use Rattle.script.specs.Header.{table_of, header_of};

use codec::{config, word_at};
use rules::{Config, TABLE_WORDS, Table};

// A number, as document 01 has it: one version is known.
const VERSION: u8 = 1;

// Where the configuration, the count of pairs and the pairs stand.
const CONFIG: usize = 4;

const COUNT: usize = CONFIG + config::BYTES;

const PAIRS: usize = COUNT + 2;

// A pair of table index and entry.
const PAIR_BYTES: usize = 4;

// What a header tells: the configuration, the jump table, and where the operations start.
#[derive(Drop)]
pub struct Header {
    pub config: Config,
    pub table: Table,
    pub operations: usize,
}

// The pairs, written to zeros; later ones win. None where an index is above 1023.
fn table_of(pairs: &[[u8; PAIR_BYTES]]) -> Option<Table>
    ensures { result ≡ table_of pairs.now }
{
    let mut table = [0; TABLE_WORDS];
    for pair in pairs {
        let index: usize = word_at(pair, 0);
        if index >= TABLE_WORDS {
            return None;
        }
        table[index] = word_at(pair, 2);
    }
    Some(table)
}

impl Header {
    // None for a wrong mark or version, a cut header or an index above 1023.
    pub fn parse(input: &[u8]) -> Option<Header>
        ensures { result ≡ header_of input.now }
    {
        let [b'H', b'M', b'T', VERSION, ..] = input else {
            return None;
        };
        if input.len() < PAIRS {
            return None;
        }
        let operations = PAIRS + PAIR_BYTES * word_at::<usize>(input, COUNT);
        let (pairs, _) = input.get(PAIRS..operations)?.as_chunks();
        Some(Header {
            config: config::config_at(input, CONFIG),
            table: table_of(pairs)?,
            operations,
        })
    }
}
