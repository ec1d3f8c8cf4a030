//! How the picture's own shapes look, on a light page and on a dark one.

/// How large the name of a station is, in units.
pub const SIZE: u64 = 14;

/// How its shapes look.
pub const LIGHT: &[u8] = b"\
.ink{fill:#222;stroke:none}.mark{fill:none;stroke:#222;stroke-width:1.4}.life{stroke:#222;stroke-dasharray:2 2}\n\
.thick{stroke:#222;stroke-width:.6}.part{stroke:#999;stroke-width:.6}.judged,.broken{font-weight:bold}\n\
.accepted{fill:#777}.late{fill:#a97400}.missed{fill:#d00}.bad{fill:#808}.broken{fill:#c00}.refused{fill:none;stroke:#d00}\n";

/// What is other on a dark page.
pub const DARK: &[u8] = b"\
.ink{fill:#e8e8e8}.mark,.life,.thick{stroke:#e8e8e8}.part{stroke:#777}.accepted{fill:#aaa}.missed,.broken{fill:#ff5a5a}.refused{stroke:#ff5a5a}\n\
.late{fill:#e0b040}.bad{fill:#d070d0}";
