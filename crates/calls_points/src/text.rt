// What the lines are made of.
pub fn say(rt: &impl Print, text: &[u8]) {
    let _ = rt.write_all(text);
}

// A space and a number.
pub fn number(rt: &impl Print, x: u64) {
    let _ = print!(rt; " {x}");
}

pub fn numbers(rt: &impl Print, w: &[u64]) {
    for x in w {
        number(rt, *x);
    }
}

// The first n entries of a list, each of so many words, behind a name.
pub fn entries(rt: &impl Print, name: &[u8], list: &[u64], n: usize, size: usize) {
    let mut rest = list;
    for _ in 0..n {
        let Some((entry, behind)) = rest.split_at_checked(size) else {
            return;
        };
        say(rt, b", ");
        say(rt, name);
        numbers(rt, entry);
        rest = behind;
    }
}
