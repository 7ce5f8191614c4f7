//! Whole numbers of any size, and doubles: the calls of `pynumber`, and the numbers of trees.

use crate::rows::{number, push, push_shown};
use pynumber::{Double, Natural};
use pytree::Integer;
use std::alloc::Global;
use std::process::Abort;

/// The rows.
pub(crate) const ROWS: &str = "
? natural 10 => 0_000 => 0 0 0 Some(0) [true, true] 0 0 Some(0) [true, true]
? natural 10 => 00000000000000000000000000000000000000007 => 7 7 1 Some(7) [true, true] 7 7 Some(7) [true, true]
? natural 10 => 1 => 1 1 1 Some(1) [true, true] 1 1 Some(1) [true, true]
? natural 2 => 1_0 => 2 2 1 Some(2) [true, true] 2 2 Some(2) [true, true]
? natural 16 => DEAD_beef => 3735928559 3735928559 10 Some(3735928559) [true, true] 3735928559 3735928559 Some(3735928559) [true, true]
? natural 16 => ffffffffffffffffffffffffffffffffffffffffffffffffffffffff \
  => 26959946667150639794667015087019630673637144422540572481103610249215 26959946667150639794667015087019630673637144422540572481103610249215 68 None [true, false] 26959946667150639794667015087019630673637144422540572481103610249215 26959946667150639794667015087019630673637144422540572481103610249215 None [true, false]
? natural 10 => 1000000000000000000 \
  => 1000000000000000000 1000000000000000000 19 Some(1000000000000000000) [true, true] 1000000000000000000 1000000000000000000 Some(1000000000000000000) [true, true]
? natural 10 => 18446744073709551615 \
  => 18446744073709551615 18446744073709551615 20 Some(18446744073709551615) [true, true] 18446744073709551615 18446744073709551615 Some(18446744073709551615) [true, true]
? natural 10 => 18446744073709551616 \
  => 18446744073709551616 18446744073709551616 20 Some(18446744073709551616) [true, true] 18446744073709551616 18446744073709551616 Some(18446744073709551616) [true, true]
? natural 10 => 1000000000000000000000000000000000000 \
  => 1000000000000000000000000000000000000 1000000000000000000000000000000000000 37 Some(1000000000000000000000000000000000000) [true, true] 1000000000000000000000000000000000000 1000000000000000000000000000000000000 Some(1000000000000000000000000000000000000) [true, true]
? natural 10 => 340282366920938463463374607431768211455 \
  => 340282366920938463463374607431768211455 340282366920938463463374607431768211455 39 Some(340282366920938463463374607431768211455) [true, true] 340282366920938463463374607431768211455 340282366920938463463374607431768211455 Some(340282366920938463463374607431768211455) [true, true]
? natural 10 => 340282366920938463463374607431768211456 \
  => 340282366920938463463374607431768211456 340282366920938463463374607431768211456 39 None [true, false] 340282366920938463463374607431768211456 340282366920938463463374607431768211456 None [true, false]
? natural 10 => 10000000000000000000000000000000000000000 \
  => 10000000000000000000000000000000000000000 10000000000000000000000000000000000000000 41 None [true, false] 10000000000000000000000000000000000000000 10000000000000000000000000000000000000000 None [true, false]
? natural 10 => 1500 => 1500 1500 4 Some(1500) [true, true] 1500 1500 Some(1500) [true, true]
? double 1.50 => 1.5 => 1.5 1.5j 1.5 1.5j 1.5 true
? double 100100000000 => 1_0.0_1e1_0 \
  => 100100000000.0 100100000000j 100100000000.0 100100000000j 100100000000.0 true
? double 1e400 => 1e309 => inf infj 1e309 1e309j inf true
? double 0 => 2.4703282292062327e-324 => 0.0 0j 0.0 0j 0.0 true
? double 10000000000000000 => 1e16 => 1e+16 1e+16j 1e+16 1e+16j 1e16 true
? double 1e309 => 1e400 => inf infj 1e309 1e309j inf true
? double 9007199254740992.0 => 9007199254740993.0 \
  => 9007199254740992.0 9007199254740992j 9007199254740992.0 9007199254740992j 9007199254740992.0 true
? double 1_0e-1j => 1.0 => 1.0 1j 1.0 1j 1.0 true
? double 1.00000000000000011102230246251565404236316680908203125 => 1.0 \
  => 1.0 1j 1.0 1j 1.0 true
? double 1.0 => 1.0000000000000002 \
  => 1.0000000000000002 1.0000000000000002j 1.0000000000000002 1.0000000000000002j 1.0000000000000002 false";

/// The number that digits of a base write: its decimal, how many digits that has, and the number as
/// one of 128 bits; then the same number in a tree.
pub(crate) fn natural(rt: &impl Abort, alloc: Global, out: &mut String, base: &str, digits: &str) {
    let radix = u64::from(number(rt, base));
    assert!(rt; 0 < radix && radix <= 36);
    match Natural::read(alloc, radix, digits.as_bytes()).expect(rt, "memory") {
        Some(number) => {
            push_natural(rt, alloc, out, &number);
            let number = Integer::of_natural(alloc, number).expect(rt, "memory");
            push_integer(rt, alloc, out, &number);
        }
        None => push(rt, out, "none"),
    }
}

/// The same of a number; whether a copy is the same, and whether the number of 128 bits is.
fn push_natural(rt: &impl Abort, alloc: Global, out: &mut String, number: &Natural) {
    number.push_decimal(out).expect(rt, "memory");
    let copy = number.clone().expect(rt, "memory");
    push_shown(rt, out, &copy);
    push_shown(rt, out, &number.len());
    let small = number.to_u128();
    push_shown(rt, out, &small);
    let made = Natural::from_u128(alloc, small.unwrap_or(0)).expect(rt, "memory");
    push_shown(rt, out, &[copy == *number, made == *number]);
}

/// The decimal of a number of a tree, the number as one of 128 bits, and whether a copy and that
/// one are the same.
fn push_integer(rt: &impl Abort, alloc: Global, out: &mut String, number: &Integer) {
    push(rt, out, " ");
    number.push_decimal(out).expect(rt, "memory");
    let copy = number.clone().expect(rt, "memory");
    push_shown(rt, out, &copy);
    let small = number.to_u128();
    push_shown(rt, out, &small);
    let made = Integer::new(alloc, small.unwrap_or(7)).expect(rt, "memory");
    push_shown(rt, out, &[copy == *number, made == *number]);
}

/// The double of a literal: its repr, and that of the imaginary number with it; what `unparse`
/// writes of both; how it is shown; and whether another literal has it too.
pub(crate) fn double(rt: &impl Abort, alloc: Global, out: &mut String, other: &str, text: &str) {
    let value = Double::read(alloc, text.as_bytes()).expect(rt, "memory");
    let other = Double::read(alloc, other.as_bytes()).expect(rt, "memory");
    value.push_repr(out, alloc).expect(rt, "memory");
    push(rt, out, " ");
    value.push_imaginary_repr(out, alloc).expect(rt, "memory");
    push(rt, out, " ");
    value.push_source(out, alloc).expect(rt, "memory");
    push(rt, out, " ");
    value.push_imaginary_source(out, alloc).expect(rt, "memory");
    push_shown(rt, out, &value);
    push_shown(rt, out, &(value == other));
}
