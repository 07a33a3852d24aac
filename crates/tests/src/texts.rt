// SPDX-License-Identifier: Apache-2.0
// SPDX-FileCopyrightText: Copyright the Vortex contributors

// Texts of paths that can't be read, which no line of a transcript contains alone.
use dtype_text::{TextError, read_path};
use std::alloc::Global;
use std::test::Fail;

// Each text that stands for no path, and the position of the first byte with which no path goes on.
const NO_PATHS: [(&str, usize); 7] = [
    ("", 1),
    ("a.", 3),
    ("a..b", 3),
    ("a b", 3),
    ("a#b", 2),
    ("a[0]", 2),
    ("$", 2),
];

fn is_misspelled_at(alloc: Global, text: &str, at: usize) -> bool {
    match read_path(alloc, text) {
        Err(TextError::Misread { position, .. }) => position == at,
        _ => false,
    }
}

#[test]
fn misspelled_paths_have_a_position(rt: HostRuntime) -> Result<(), Fail> {
    let alloc = rt.alloc();
    for (text, position) in NO_PATHS {
        assert!(rt; is_misspelled_at(alloc, text, position));
    }
    Ok(())
}
