//! Published vectors, read as lines: each is answered by one line.
//!
//! | Line | Answer |
//! |---|---|
//! | `aes KEY BLOCK`, `unaes KEY BLOCK` | the ciphertext of a block, the block of a ciphertext |
//! | `cmac KEY MESSAGE` | the CMAC |
//! | `gcm KEY IV EXTRA TEXT` | ciphertext and tag |
//! | `ungcm KEY IV EXTRA CIPHERTEXT TAG` | the text, or `fails` |
//! | `wrap KEK KEY` | the wrapped key |
//! | `unwrap KEK WRAPPED` | the key, or `fails` |
//! | `kdf KEY LABEL CONTEXT BITS` | 128 or 256 bits that are derived |
//! | `kek CAK CKN BLOCK`, `ick CAK CKN BLOCK` | the ciphertext of a block under the group's key |
//! | `protect KEY SCI AN PN MODE DESTINATION DATA` | the protected frame |
//! | `open KEY FRAME` | its user data, `fails`, or why it is refused |
//! | `openxpn KEY SSCI SALT NUMBER CLEAR FRAME` | the same under extended packet numbers, with so many octets in clear |
//! | `mka FRAME` | what the frame spells, or why it is refused |
//! | `rewrite FRAME` | what is written of what the frame spells, without a check value |
//!
//! Keys, blocks, texts and frames are hexadecimal digits, of either case, and `-` is an empty word.
//! `07*3+08` is `07070708`: pieces stand one after the other, and a piece may be repeated. No word
//! has more than 65,536 octets. PN is a number, AN one from 0 to 3, and MODE is `confidentiality` or
//! `integrity`. Lines that begin with `#` and lines without words are passed over.
//!
//! The files of NIST's validation suites have a line `NAME = VALUE` for each word, so a few lines of
//! awk make vectors of them. Here those of GCM that are opened, with the IVs and tags that there are:
//!
//! ```sh
//! tr -d '\r' < gcmDecrypt128.rsp | awk '
//!   $2 == "=" { v[$1] = $3 == "" ? "-" : $3 }
//!   $1 == "Tag" && v["[IVlen"] == "96]" && v["[Taglen"] == "128]" {
//!     print "ungcm", v["Key"], v["IV"], v["AAD"], v["CT"], v["Tag"]
//!   }' | workbench vectors
//! ```

mod answers;
mod derivations;
mod fault;
mod frames;
mod kind;
mod modes;
mod octets;
mod spellings;

use anyhow::bail;
pub use fault::VectorFault;
use kind::Kind;
use std::alloc::Global;
use std::io::{BufRead, Write};

/// Answers each vector of a reader in a line. A line that is no vector ends that, and the error has
/// its number, from 1 on.
pub fn answer_lines<I: BufRead + Drop, W: Write>(
    alloc: Global,
    reader: I,
    writer: &mut W,
) -> anyhow::Result<()> {
    let mut number = 0u64;
    for line in reader.lines(alloc) {
        number = number.saturating_add(1);
        let line = line?;
        if is_vector(&line) {
            match answer_line(alloc, &line) {
                Ok(answer) => writeln!(writer, "{answer}")?,
                Err(fault) => bail!("line {number}: {fault}"),
            }
        }
    }
    Ok(())
}

/// Whether a line is no comment and has a word.
fn is_vector(line: &str) -> bool {
    match line.split_whitespace().next() {
        Some(word) => !word.starts_with('#'),
        None => false,
    }
}

/// The answer to a vector.
pub fn answer_line(alloc: Global, line: &str) -> Result<String, VectorFault> {
    let words: Vec<&str> = line.split_whitespace().collect(alloc)?;
    let Some((kind, words)) = words.split_first() else {
        return Err(VectorFault::Kind);
    };
    match kind.parse()? {
        Kind::Aes => modes::encrypt(alloc, words),
        Kind::Unaes => modes::decrypt(alloc, words),
        Kind::Cmac => modes::check(alloc, words),
        Kind::Gcm => modes::seal_text(alloc, words),
        Kind::Ungcm => modes::unseal_text(alloc, words),
        Kind::Wrap => modes::wrap_key(alloc, words),
        Kind::Unwrap => modes::unwrap_key(alloc, words),
        Kind::Kdf => derivations::derive_octets(alloc, words),
        Kind::Kek => derivations::encrypt_by_kek(alloc, words),
        Kind::Ick => derivations::encrypt_by_ick(alloc, words),
        Kind::Protect => frames::protect_data(alloc, words),
        Kind::Open => frames::open(alloc, words),
        Kind::OpenXpn => frames::open_xpn(alloc, words),
        Kind::Mka => spellings::tell(alloc, words),
        Kind::Rewrite => spellings::rewrite(alloc, words),
    }
}
