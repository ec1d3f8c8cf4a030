//! A key, wrapped under the key encrypting key.

/// A secure association key (SAK), wrapped under the key encrypting key, as the cipher suite that it
/// is for has it.
#[derive(Clone, Copy, Debug, PartialEq, Eq)]
pub enum WrappedKey {
    /// A key for GCM-AES-128.
    Aes128([u8; 24]),
    /// A key for GCM-AES-256.
    Aes256([u8; 40]),
    /// A key for GCM-AES-XPN-128.
    Xpn128([u8; 24]),
    /// A key for GCM-AES-XPN-256.
    Xpn256([u8; 40]),
    /// A key for another cipher suite, whose octets are not read.
    Other,
}
