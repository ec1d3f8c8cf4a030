//! What is told of secrets.

use aes_block::{Key, Secret};

#[test]
fn tells_of_a_secret_and_of_a_key_its_length_alone(rt: HostRuntime) {
    let short = Secret::S128([7; 16]);
    let long = Secret::S256([7; 32]);
    let key = Key::of(&short);
    let long_key = Key::of(&long);
    let shown = format!(in rt.alloc(); "{short:?} {long:?} {key:?} {long_key:?}");
    assert_eq!(rt;
        shown.expect(&rt, "memory").as_str(),
        "Secret(128 bits) Secret(256 bits) Key(128 bits) Key(256 bits)"
    );
}
