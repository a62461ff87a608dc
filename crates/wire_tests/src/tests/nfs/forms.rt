//! Each word of arguments that is wrong.

use super::{HANDLE, PLACE};
use crate::tests::arguments::Format::Nfs;
use crate::tests::arguments::{Form, have_forms};
use std::test::Fail;

/// Attributes of which each is set, both times to the client's.
const ATTRIBUTES: [u32; 15] = [1, 0o644, 1, 7, 1, 100, 1, 1, 2, 2, 3, 4, 2, 5, 6];

#[test]
fn words_of_calls_on_a_handle(rt: HostRuntime) -> Result<(), Fail> {
    have_forms(
        &rt,
        &[
            Form(Nfs(1), &HANDLE, &[], &[], &[0], &[]),
            Form(Nfs(4), &HANDLE, &[0x3f], &[], &[0], &[]),
            Form(Nfs(5), &HANDLE, &[], &[], &[0], &[]),
            Form(Nfs(6), &HANDLE, &[1, 2, 3], &[], &[0], &[]),
            Form(
                Nfs(7),
                &HANDLE,
                &[0, 9, 3, 2],
                &[5, 0x6865_6c6c, 0x6f00_0000],
                &[0, 6],
                &[(5, 3)],
            ),
            Form(Nfs(16), &HANDLE, &[3, 4, 1, 2, 4096], &[], &[0], &[]),
            Form(Nfs(17), &HANDLE, &[0, 3, 1, 2, 512, 8192], &[], &[0], &[]),
            Form(Nfs(18), &HANDLE, &[], &[], &[0], &[]),
            Form(Nfs(19), &HANDLE, &[], &[], &[0], &[]),
            Form(Nfs(20), &HANDLE, &[], &[], &[0], &[]),
            Form(Nfs(21), &HANDLE, &[0, 5, 6], &[], &[0], &[]),
        ],
    )
}

#[test]
fn words_of_calls_on_a_name(rt: HostRuntime) -> Result<(), Fail> {
    const NEW_PLACE: [u32; 4] = [4, 0x6566_6768, 1, 0x7800_0000];
    have_forms(
        &rt,
        &[
            Form(Nfs(3), &PLACE, &[], &[], &[0, 2], &[]),
            Form(Nfs(12), &PLACE, &[], &[], &[0, 2], &[]),
            Form(Nfs(13), &PLACE, &[], &[], &[0, 2], &[]),
            Form(Nfs(14), &PLACE, &NEW_PLACE, &[], &[0, 2, 4, 6], &[]),
            Form(Nfs(15), &HANDLE, &PLACE, &[], &[0, 2, 4], &[]),
        ],
    )
}

#[test]
fn words_of_attributes(rt: HostRuntime) -> Result<(), Fail> {
    have_forms(
        &rt,
        &[
            Form(
                Nfs(2),
                &HANDLE,
                &ATTRIBUTES,
                &[1, 8, 9],
                &[0],
                &[(2, 2), (4, 2), (6, 2), (8, 2), (11, 3), (14, 3), (17, 2)],
            ),
            Form(
                Nfs(8),
                &PLACE,
                &[0],
                &ATTRIBUTES,
                &[0, 2],
                &[(4, 3), (5, 2), (7, 2), (9, 2), (11, 2), (14, 3), (17, 3)],
            ),
            Form(
                Nfs(8),
                &PLACE,
                &[1],
                &ATTRIBUTES,
                &[0, 2],
                &[(4, 3), (5, 2), (7, 2), (9, 2), (11, 2), (14, 3), (17, 3)],
            ),
            Form(Nfs(8), &PLACE, &[2, 1, 2], &[], &[0, 2], &[(4, 3)]),
            Form(
                Nfs(9),
                &PLACE,
                &ATTRIBUTES,
                &[],
                &[0, 2],
                &[(4, 2), (6, 2), (8, 2), (10, 2), (13, 3), (16, 3)],
            ),
            Form(
                Nfs(10),
                &PLACE,
                &ATTRIBUTES,
                &[3, 0x612f_6200],
                &[0, 2, 19],
                &[(4, 2), (6, 2), (8, 2), (10, 2), (13, 3), (16, 3)],
            ),
        ],
    )
}

/// A block device, a character device, a socket and a FIFO have attributes, and other types have nothing.
#[test]
fn words_of_mknod(rt: HostRuntime) -> Result<(), Fail> {
    const DEVICE: [u32; 17] = [1, 0o644, 1, 7, 1, 100, 1, 1, 2, 2, 3, 4, 2, 5, 6, 4, 64];
    const CHOICES: [(usize, u32); 7] = [(4, 8), (5, 2), (7, 2), (9, 2), (11, 2), (14, 3), (17, 3)];
    have_forms(
        &rt,
        &[
            Form(Nfs(11), &PLACE, &[3], &DEVICE, &[0, 2], &CHOICES),
            Form(Nfs(11), &PLACE, &[4], &DEVICE, &[0, 2], &CHOICES),
            Form(Nfs(11), &PLACE, &[6], &ATTRIBUTES, &[0, 2], &CHOICES),
            Form(Nfs(11), &PLACE, &[7], &ATTRIBUTES, &[0, 2], &CHOICES),
            Form(Nfs(11), &PLACE, &[1], &[], &[0, 2], &[(4, 8)]),
            Form(Nfs(11), &PLACE, &[2], &[], &[0, 2], &[(4, 8)]),
            Form(Nfs(11), &PLACE, &[5], &[], &[0, 2], &[(4, 8)]),
        ],
    )
}
