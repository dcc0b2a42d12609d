// The keys of titles. Standard input has a line NUMBER TAB HEX for each title; standard output gets NUMBER TAB KEY, or
// NUMBER TAB and `refused`, number and place, or `line` and its number and `: malformed`, one line for each. How many
// lines were malformed is said on standard error. The cell table is `jis.tab`, or zeros if absent; question 1 is put
// once. `keys_lines::print` is the work on one line.
#![tactic(auto)]

mod lines;

use lines::all_lines;

/// Says how many lines were malformed, if any.
fn summary(rt: &impl Eprint, malformed: u64) {
    if malformed > 0 {
        let _ = eprintln!(rt; "{malformed} malformed");
    }
}

/// The file's buffer has room for one byte more than a cell table has, so that a longer one shows.
fn main(rt: HostRuntime) {
    let mut bytes = [0u8; 17673];
    let table = files::read_table(&rt, &mut bytes);
    let mut t = [0u16; 8836];
    let n = table.unwrap_or(0);
    let m = jis_tab::fill(table.is_some(), &bytes[..n], &mut t);
    summary(&rt, all_lines(&rt, &t[..m]));
}
