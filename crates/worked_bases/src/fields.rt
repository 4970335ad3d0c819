//! Sums, products and inverses in each field, and the fields by their orders.

use field_core::Field;
use small_fields::{F2, F3, F5, F251, F256, FieldName};
use std::process::Abort;

fn value<F: Field>(rt: &impl Abort, number: u16) -> F {
    F::from_number(number).expect(rt, "the number of a value")
}

fn assert_number(rt: &impl Abort, number: u16, want: u16) {
    assert_eq!(rt; number, want);
}

/// Asserts what the order is, and the numbers of zero and one, and that zero has no inverse.
fn assert_order<F: Field>(rt: &impl Abort, order: u16) {
    assert_number(rt, F::ORDER, order);
    assert!(rt; F::from_number(order).is_none());
    assert_number(rt, F::zero().number(), 0);
    assert_number(rt, F::one().number(), 1);
    assert!(rt; F::zero().inverse().is_none());
}

/// Asserts what the sum, the difference and the product are.
fn assert_sums<F: Field>(rt: &impl Abort, a: u16, b: u16, want: (u16, u16, u16)) {
    let x: F = value(rt, a);
    let y: F = value(rt, b);
    assert_number(rt, x.number(), a);
    assert_number(rt, x.add(y).number(), want.0);
    assert_number(rt, x.sub(y).number(), want.1);
    assert_number(rt, x.mul(y).number(), want.2);
}

/// Asserts what the negative and the inverse are.
fn assert_inverse<F: Field>(rt: &impl Abort, a: u16, negative: u16, inverse: u16) {
    let x: F = value(rt, a);
    assert_number(rt, x.neg().number(), negative);
    match x.inverse() {
        Some(y) => assert_number(rt, y.number(), inverse),
        None => panic!(rt; "an inverse"),
    }
}

#[test]
fn counts_modulo_small_primes(rt: HostRuntime) {
    assert_order::<F2>(&rt, 2);
    assert_sums::<F2>(&rt, 1, 1, (0, 0, 1));
    assert_sums::<F2>(&rt, 0, 1, (1, 1, 0));
    assert_inverse::<F2>(&rt, 1, 1, 1);
    assert_order::<F3>(&rt, 3);
    assert_sums::<F3>(&rt, 2, 2, (1, 0, 1));
    assert_sums::<F3>(&rt, 1, 2, (0, 2, 2));
    assert_inverse::<F3>(&rt, 1, 2, 1);
    assert_inverse::<F3>(&rt, 2, 1, 2);
}

#[test]
fn counts_modulo_larger_primes(rt: HostRuntime) {
    assert_order::<F5>(&rt, 5);
    assert_sums::<F5>(&rt, 3, 4, (2, 4, 2));
    assert_sums::<F5>(&rt, 1, 3, (4, 3, 3));
    assert_inverse::<F5>(&rt, 3, 2, 2);
    assert_inverse::<F5>(&rt, 4, 1, 4);
    assert_order::<F251>(&rt, 251);
    assert_sums::<F251>(&rt, 250, 250, (249, 0, 1));
    assert_sums::<F251>(&rt, 100, 200, (49, 151, 171));
    assert_inverse::<F251>(&rt, 2, 249, 126);
    assert_inverse::<F251>(&rt, 250, 1, 250);
}

#[test]
fn multiplies_bytes(rt: HostRuntime) {
    assert_order::<F256>(&rt, 256);
    assert_sums::<F256>(&rt, 83, 202, (153, 153, 1));
    assert_sums::<F256>(&rt, 2, 128, (130, 130, 27));
    assert_sums::<F256>(&rt, 3, 3, (0, 0, 5));
    assert_sums::<F256>(&rt, 255, 255, (0, 0, 19));
    assert_sums::<F256>(&rt, 0x57, 0x83, (0xd4, 0xd4, 0xc1));
    assert_sums::<F256>(&rt, 0x57, 0x13, (0x44, 0x44, 0xfe));
    assert_inverse::<F256>(&rt, 83, 83, 202);
    assert_inverse::<F256>(&rt, 1, 1, 1);
}

/// Asserts that there is a field of this order.
fn assert_named(rt: &impl Abort, order: u16) {
    match FieldName::of(order) {
        Some(name) => assert_number(rt, name.order(), order),
        None => panic!(rt; "a field"),
    }
}

/// Asserts that there is none.
fn assert_unnamed(rt: &impl Abort, order: u16) {
    assert!(rt; FieldName::of(order).is_none());
}

#[test]
fn names_the_orders(rt: HostRuntime) {
    assert_named(&rt, 2);
    assert_named(&rt, 3);
    assert_named(&rt, 5);
    assert_named(&rt, 251);
    assert_named(&rt, 256);
    assert_unnamed(&rt, 0);
    assert_unnamed(&rt, 1);
    assert_unnamed(&rt, 4);
    assert_unnamed(&rt, 6);
    assert_unnamed(&rt, 250);
    assert_unnamed(&rt, 252);
    assert_unnamed(&rt, 255);
    assert_unnamed(&rt, 257);
    assert_unnamed(&rt, u16::MAX);
}
