// Runs the products that FIPS 197 publishes, and works its S-box out from the inverse of every byte. What it prints is compared with the
// document's numbers.
#![tactic(auto)]

ghost use Rattle.std.specs.Prelude.{◌<◌};

use gf256::Gf256;
use std::io;

fn product(rt: &impl Print, a: u8, b: u8) -> io::Result<()> {
    let c = Gf256::mul_const(a, b);
    println!(rt; "{{{a:02x}}} . {{{b:02x}}} = {{{c:02x}}}")
}

// Section 5.1.1: the inverse, or 0 for 0, then the affine transformation.
fn s_box(a: u8) -> u8 {
    let b = Gf256::new(a).inv().unwrap_or(0);
    b ^ b.rotate_left(1) ^ b.rotate_left(2) ^ b.rotate_left(3) ^ b.rotate_left(4) ^ 0x63
}

// A row of the S-box: the bytes whose high digit is given.
fn row(rt: &impl Print, high: u8) -> io::Result<()>
    requires { high < 16 }
{
    for low in 0..16 {
        let b = s_box(high * 16 + low);
        print!(rt; "{b:02x}")?;
    }
    println!(rt)
}

fn main(rt: HostRuntime) -> io::Result<()> {
    for b in [0x83, 0x13, 0x02, 0x04, 0x08, 0x10] {
        product(&rt, 0x57, b)?;
    }
    for high in 0..16 {
        row(&rt, high)?;
    }
    Ok(())
}
