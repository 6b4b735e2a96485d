// What is told of the arguments on standard error. That it cannot be told is told nowhere.

// How the program is used.
pub fn usage(rt: &HostRuntime) {
    let _ = eprintln!(rt; "usage: day_figures DESKS FILE..");
    let _ = eprintln!(rt; "DESKS is a desk count from 1 to 8, each FILE the name of a day file");
}

// The first argument is no number.
pub fn no_number(rt: &HostRuntime, word: &[u8]) {
    let errors = rt.stderr();
    let _ = errors.write_all(b"day_figures: the desk count is no number: ");
    let _ = errors.write_all(word);
    let _ = errors.write_all(b"\n");
}

// The first argument has more bytes than are looked at.
pub fn long_number(rt: &HostRuntime) {
    let _ = eprintln!(rt; "day_figures: the desk count has more than 131072 digits");
}
