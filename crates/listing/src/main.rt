// Decodes standard input, at most 4,096 bytes, and prints text and issues: docs/01-scope.md, below
// "The table of twelve". The cell table is `jis.tab` in the working directory, or zeros if there is
// none. All that is printed is `listing_lines::listing` of what was read.
#![tactic(auto)]

use files::{fail, read, read_table};

/// Each buffer has room for one byte more than is taken, so that what is longer shows, and no more of
/// it is read.
fn main(rt: HostRuntime) {
    let mut bytes = [0u8; 4097];
    let k = match read(&mut rt.stdin(), &mut bytes) {
        Ok(k) => k,
        Err(failed) => {
            fail(&rt, b"standard input", failed.why);
            return;
        }
    };
    let mut cells = [0u8; 17673];
    let table = read_table(&rt, &mut cells);
    let mut out = [0u8; listing_lines::GREATEST];
    let m = table.unwrap_or(0);
    let n = listing_lines::listing(table.is_some(), &cells[..m], &bytes[..k], &mut out);
    if let Err(why) = rt.write_all(&out[..n]) {
        fail(&rt, b"standard output", why);
    }
}
