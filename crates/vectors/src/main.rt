// Prints the digests of the published test strings, one a line: 16 hexadecimal digits, a space, and the string in quotes.
#![tactic(auto)]

use digest::digest;
use std::io;

// One line: the digest of these bytes, and how they are shown.
fn line(rt: &HostRuntime, bytes: &[u8], shown: &str) -> io::Result<()> {
    let said = digest(bytes);
    println!(rt; "{said:016x} \"{shown}\"")
}

// A line for bytes that are shown as they are.
fn plain(rt: &HostRuntime, text: &str) -> io::Result<()> {
    line(rt, text.as_bytes(), text)
}

fn main(rt: HostRuntime) -> io::Result<()> {
    plain(&rt, "")?;
    plain(&rt, "a")?;
    plain(&rt, "b")?;
    plain(&rt, "c")?;
    plain(&rt, "d")?;
    plain(&rt, "e")?;
    plain(&rt, "f")?;
    plain(&rt, "fo")?;
    plain(&rt, "foo")?;
    plain(&rt, "foob")?;
    plain(&rt, "fooba")?;
    plain(&rt, "foobar")?;
    line(&rt, b"\0", "\\0")?;
    line(&rt, b"chongo was here!\n", "chongo was here!\\n")
}
