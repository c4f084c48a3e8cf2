// The answers in words.
use levels::{Level, Refusal};
use std::io;

fn refused(rt: &impl Print, refusal: Refusal) -> io::Result<()> {
    println!(rt; "refused {}", refusal.number())
}

pub fn changed(rt: &impl Print, answer: Result<(), Refusal>) -> io::Result<()> {
    match answer {
        Ok(()) => rt.println("done"),
        Err(refusal) => refused(rt, refusal),
    }
}

// The price of each level on a line, behind a word.
pub fn prices(rt: &impl Print, word: &str, levels: Result<&[Level], Refusal>) -> io::Result<()> {
    match levels {
        Ok(levels) => {
            for level in levels {
                println!(rt; "{word} {}", level.price)?;
            }
            Ok(())
        }
        Err(refusal) => {
            print!(rt; "{word} ")?;
            refused(rt, refusal)
        }
    }
}

// The best price behind its name.
pub fn best(rt: &impl Print, name: &str, level: Result<Option<Level>, Refusal>) -> io::Result<()> {
    print!(rt; "{name} ")?;
    match level {
        Ok(Some(level)) => rt.println(level.price),
        Ok(None) => rt.println("none"),
        Err(refusal) => refused(rt, refusal),
    }
}

// Whether a sum is the one in rising order of price.
pub fn rising(rt: &impl Print, sum: Result<f64, Refusal>, wanted: f64) -> io::Result<()> {
    match sum {
        Ok(sum) if sum == wanted => rt.println("rising"),
        Ok(_) => rt.println("otherwise"),
        Err(refusal) => refused(rt, refusal),
    }
}
