// SPDX-License-Identifier: Apache-2.0
// SPDX-FileCopyrightText: Copyright the Vortex contributors

// The lines on standard error before and after a call. Where one can't be written, `tools/gate/refused_memory` misses the
// call's count.

pub fn begin(rt: &impl Eprint) {
    let _ = eprintln!(rt; "begin");
}

pub fn end(rt: &impl Eprint) {
    let _ = eprintln!(rt; "end");
}
