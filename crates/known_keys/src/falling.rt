//! Numbers in a list, the greatest first.

ghost use Rattle.std.specs.Prelude.{◌≡◌, ◌++◌, ◌&&◌, ◌||◌, ◌==◌, ℕ, Bool, length, [], OnOk, OnErr, max, nat_le, position};
ghost use Rattle.known_keys.specs.Numbered.{greatest_first};
ghost use Rattle.known_keys.specs.inside.Steps.{with_place};

use std::alloc::{AllocError, Global};
use std::marker::Model;

/// Numbers, the greatest first. Contracts see them as a list.
#[derive(Drop)]
pub struct Falling {
    numbers: Vec<u32>,
}

impl Model for Falling {
    ghost use Rattle.std.specs.Prelude.{List, ℕ};

    ghost Value = { List ℕ };

    ghost view = { λ f. f.numbers.items };
}

impl Falling {
    /// No number. No memory is taken.
    pub fn new(alloc: Global) -> Falling
        ensures { result ≡ [] }
    {
        Falling {
            numbers: Vec::new(alloc),
        }
    }

    /// A number more stands at its place, if it did not stand there. An error leaves all as it was.
    pub fn put(&mut self, number: u32) -> Result<(), AllocError>
        ensures put { OnOk result (self.new ≡ with_place number self.old) }
        ensures kept { OnErr result (self.new ≡ self.old) }
    {
        put_number(&mut self.numbers, number)
    }

    /// The numbers.
    pub fn numbers(&self) -> &[u32]
        ensures { result.now ≡ self.now }
    {
        &self.numbers
    }
}

/// A number more stands in the list, at its place. An error leaves the list as it was.
fn put_number(list: &mut Vec<u32>, number: u32) -> Result<(), AllocError>
    ensures put { OnOk result (list.new.items ≡ with_place number list.old.items) }
    ensures kept { OnErr result (list.new.items ≡ list.old.items) }
{
    let Some(at) = place_of(list, number) else {
        list.push(number)?;
        return Ok(());
    };
    if list[at] != number {
        list.insert(at, number)?;
    }
    Ok(())
}

/// Where the first number stands that is not above this one.
fn place_of(list: &[u32], number: u32) -> Option<usize>
    ensures { result ≡ position (λ n. nat_le n number) list.now }
{
    list.iter().position(|n| *n <= number)
}

/// Appends the numbers of both lists, each once, the greatest first.
pub fn append_both(first: &[u32], second: &[u32], numbers: &mut Vec<u32>) -> Result<(), AllocError>
    ensures { (p q : ℕ → Bool) (k : ℕ) → first.now ≡ greatest_first p k
        → second.now ≡ greatest_first q k
        → OnOk result (numbers.new.items ≡ numbers.old.items ++ greatest_first (λ n. p n || q n) k) }
{
    let mut one = first;
    let mut other = second;
    loop {
        let Some((a, behind_a)) = one.split_first() else {
            return numbers.extend_from_slice(other);
        };
        let Some((b, behind_b)) = other.split_first() else {
            return numbers.extend_from_slice(one);
        };
        let (a, b) = (*a, *b);
        numbers.push(greater(a, b))?;
        if b < a {
            one = behind_a;
        } else if a < b {
            other = behind_b;
        } else {
            one = behind_a;
            other = behind_b;
        }
    }
}

/// Whether there is no number in either list.
pub fn are_empty(one: &[u32], other: &[u32]) -> bool
    ensures { result ≡ ((length one.now == 0) && (length other.now == 0)) }
{
    one.is_empty() && other.is_empty()
}

/// The greater of two numbers.
fn greater(a: u32, b: u32) -> u32
    ensures { result ≡ max a b }
{
    if b < a { a } else { b }
}
