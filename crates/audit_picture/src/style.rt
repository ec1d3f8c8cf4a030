//! How the picture's own shapes look, on a light page and on a dark one.

/// How large the name of a sender is, in units.
pub const SIZE: u64 = 12;

/// How its shapes look.
pub const LIGHT: &[u8] = b"\
.bar{stroke:#222;stroke-width:.6}.mark{stroke:#222;stroke-width:.8}.report{fill:none;stroke:#222;stroke-width:1.4}\n\
.reuse{fill:none;stroke:#e00000;stroke-width:2}.broken{fill:#e00000;font-weight:bold}\n";

/// What is other on a dark page.
pub const DARK: &[u8] =
    b".bar,.mark,.report{stroke:#e8e8e8}.reuse{stroke:#ff5a5a}.broken{fill:#ff5a5a}";
