//! Each word of arguments that is wrong, and procedures that are not.

use super::super::{COOKIE, HOLDER, LOCK};
use super::calls::SHARED;
use crate::tests::arguments::Format::{Granted, Nlm};
use crate::tests::arguments::{Form, Garbage, all_are_garbage, have_forms};
use std::test::Fail;

/// The words of a cookie, block and exclusive.
const FRONT: [u32; 4] = [2, 0x6162_0000, 1, 0];

/// The words of reclaim and state.
const STATE: [u32; 2] = [1, 0xffff_fffd];

/// The bools of a LOCK.
const BOOLS: [(usize, u32); 3] = [(2, 2), (3, 2), (15, 2)];

#[test]
fn words_of_calls_on_a_lock(rt: HostRuntime) -> Result<(), Fail> {
    have_forms(
        &rt,
        &[
            Form(Nlm(1), &COOKIE, &[1], &LOCK, &[0, 3, 5, 7], &[(2, 2)]),
            Form(Nlm(2), &FRONT, &LOCK, &STATE, &[0, 4, 6, 8], &BOOLS),
            Form(Nlm(3), &FRONT, &LOCK, &[], &[0, 4, 6, 8], &[(2, 2), (3, 2)]),
            Form(Nlm(4), &COOKIE, &LOCK, &[], &[0, 2, 4, 6], &[]),
            Form(Nlm(5), &COOKIE, &[1], &LOCK, &[0, 3, 5, 7], &[(2, 2)]),
            Form(Nlm(6), &COOKIE, &[1], &LOCK, &[0, 3, 5, 7], &[(2, 2)]),
            Form(Nlm(7), &FRONT, &LOCK, &STATE, &[0, 4, 6, 8], &BOOLS),
            Form(Nlm(8), &FRONT, &LOCK, &[], &[0, 4, 6, 8], &[(2, 2), (3, 2)]),
            Form(Nlm(9), &COOKIE, &LOCK, &[], &[0, 2, 4, 6], &[]),
            Form(Nlm(10), &COOKIE, &[1], &LOCK, &[0, 3, 5, 7], &[(2, 2)]),
            Form(Nlm(22), &FRONT, &LOCK, &STATE, &[0, 4, 6, 8], &BOOLS),
        ],
    )
}

/// A TEST that is denied has a holder.
#[test]
fn words_of_results(rt: HostRuntime) -> Result<(), Fail> {
    have_forms(
        &rt,
        &[
            Form(Nlm(11), &COOKIE, &[0], &[], &[0], &[(2, 10)]),
            Form(Nlm(11), &COOKIE, &[1], &HOLDER, &[0, 5], &[(2, 10), (3, 2)]),
            Form(Nlm(12), &COOKIE, &[1], &[], &[0], &[(2, 10)]),
            Form(Nlm(13), &COOKIE, &[1], &[], &[0], &[(2, 10)]),
            Form(Nlm(14), &COOKIE, &[1], &[], &[0], &[(2, 10)]),
            Form(Nlm(15), &COOKIE, &[1], &[], &[0], &[(2, 10)]),
            Form(Granted, &COOKIE, &[0], &[], &[0], &[(2, 10)]),
        ],
    )
}

#[test]
fn words_of_a_share_and_of_free_all(rt: HostRuntime) -> Result<(), Fail> {
    const NAME: [u32; 3] = [5, 0x686f_7374, 0x6e00_0000];
    const CHOICES: [(usize, u32); 3] = [(8, 4), (9, 4), (10, 2)];
    have_forms(
        &rt,
        &[
            Form(
                Nlm(20),
                &COOKIE,
                &SHARED,
                &[2, 1, 1],
                &[0, 2, 4, 6],
                &CHOICES,
            ),
            Form(
                Nlm(21),
                &COOKIE,
                &SHARED,
                &[2, 1, 1],
                &[0, 2, 4, 6],
                &CHOICES,
            ),
            Form(Nlm(23), &NAME, &[9], &[], &[0], &[]),
        ],
    )
}

#[test]
fn other_procedures_are_garbage(rt: HostRuntime) -> Result<(), Fail> {
    all_are_garbage(
        &rt,
        &[
            Garbage(Nlm(16), &COOKIE, &[0], &[]),
            Garbage(Nlm(17), &COOKIE, &[0], &[]),
            Garbage(Nlm(18), &COOKIE, &[0], &[]),
            Garbage(Nlm(19), &COOKIE, &[0], &[]),
            Garbage(Nlm(24), &COOKIE, &[0], &[]),
            Garbage(Nlm(u32::MAX), &COOKIE, &[0], &[]),
        ],
    )
}
