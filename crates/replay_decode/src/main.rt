// Holds `decode_with`, `measure` and `clean` to calls whose answers are known: `decode.bin` has the calls with their answers,
// `jis.tab` the cell table (compare/README.md has the layout). A line says how many calls were compared and how many differ.
#![tactic(auto)]

mod decoding;

use replay_vectors::files::{cells, file_room, read};
use replay_vectors::tally::line;

/// The buffer is longer than the file, whose end is looked at.
fn main(rt: HostRuntime) {
    let mut t = [0u16; 8836];
    if !cells(&rt, &mut t) {
        return;
    }
    let mut file = file_room();
    let n = read(&rt, b"decode.bin", &mut file);
    line(
        &rt,
        b"decode, measure and clean",
        decoding::replay(&file[..n], &t),
    );
}
