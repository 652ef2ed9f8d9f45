use registers::bits::BitRegister;
use registers::packed::PackedRegister;
use registers::register::Register;
use std::process::Abort;
use std::test::Fail;

// The numbers asked about: the stations and five that are no station's.
const NUMBERS: usize = 21;

// Holds what a register answers to a plain table of who is named.
fn check_answers<R: Register>(
    rt: &impl Abort,
    register: R,
    named: &[bool; NUMBERS],
) -> Result<(), Fail> {
    for (number, is_named) in named.iter().enumerate() {
        assert_eq!(rt; register.names(number), *is_named);
    }
    let count = named.iter().filter(|is_named| **is_named).count();
    assert_eq!(rt; register.count(), count);
    Ok(())
}

#[test]
fn both_kinds_answer_as_a_table(rt: HostRuntime) -> Result<(), Fail> {
    let mut named = [false; NUMBERS];
    let mut bits = BitRegister::empty();
    let mut packed = PackedRegister::empty();
    check_answers(&rt, bits, &named)?;
    check_answers(&rt, packed, &named)?;
    for step in 0..600 {
        // each number comes twice in a row, and stations are struck in another order than added
        let adding = step / 30 % 2 == 0;
        let stride = if adding { 5 } else { 8 };
        let number = step / 2 * stride % NUMBERS;
        named[number] = adding && number < 16;
        bits = if adding {
            bits.add(number)
        } else {
            bits.strike(number)
        };
        packed = if adding {
            packed.add(number)
        } else {
            packed.strike(number)
        };
        check_answers(&rt, bits, &named)?;
        check_answers(&rt, packed, &named)?;
    }
    Ok(())
}
