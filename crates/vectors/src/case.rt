// A case: one line of the input, and what is computed from it, by a function for each form.
use crate::answer::Answered;
use cases::{Answer, Fault, bytes, number};
use digest::Hasher;
use mac::{Hmac, hmac_parts};
use std::alloc::Global;

// The bytes of each word.
fn every(heap: Global, words: &[&str]) -> Result<Vec<Vec<u8>>, Fault> {
    words.iter().map(|word| bytes(heap, word)).try_collect(heap)
}

fn sha256(parts: &[Vec<u8>]) -> Result<Answered, Fault> {
    let [message] = parts else {
        return Err(Fault::Count);
    };
    Ok(Answered::Digest(digest::sha256(message)))
}

fn pieces(parts: &[Vec<u8>]) -> Answered {
    let mut hasher = Hasher::new();
    for piece in parts {
        hasher.update(piece);
    }
    Answered::Digest(hasher.finish())
}

fn repeat(count: u32, parts: &[Vec<u8>]) -> Result<Answered, Fault> {
    let [unit] = parts else {
        return Err(Fault::Count);
    };
    let mut hasher = Hasher::new();
    for _ in 0..count {
        hasher.update(unit);
    }
    Ok(Answered::Digest(hasher.finish()))
}

fn hmac(parts: &[Vec<u8>]) -> Result<Answered, Fault> {
    let [key, pieces @ ..] = parts else {
        return Err(Fault::Count);
    };
    let mut mac = Hmac::new(key);
    for piece in pieces {
        mac.update(piece);
    }
    Ok(Answered::Digest(mac.finish()))
}

fn three_parts(parts: &[Vec<u8>]) -> Result<Answered, Fault> {
    let [key, a, b, c] = parts else {
        return Err(Fault::Count);
    };
    Ok(Answered::Digest(hmac_parts(key, &[a.as_slice(), b.as_slice(), c.as_slice()])))
}

fn pbkdf2(parts: &[Vec<u8>], rounds: u32) -> Result<Answered, Fault> {
    let [password, salt] = parts else {
        return Err(Fault::Count);
    };
    Ok(Answered::Digest(mac::pbkdf2(password, salt, rounds)))
}

fn equal(parts: &[Vec<u8>]) -> Result<Answered, Fault> {
    let [a, b] = parts else {
        return Err(Fault::Count);
    };
    Ok(Answered::Same(octets::equal(a, b)))
}

fn counted(heap: Global, words: &[&str]) -> Result<Answered, Fault> {
    let [count, parts @ ..] = words else {
        return Err(Fault::Count);
    };
    repeat(number(count)?, &every(heap, parts)?)
}

fn derived(heap: Global, words: &[&str]) -> Result<Answered, Fault> {
    let [parts @ .., rounds] = words else {
        return Err(Fault::Count);
    };
    let rounds = number(rounds)?;
    pbkdf2(&every(heap, parts)?, rounds)
}

// By name, since a table of functions would list the same names and say no more.
fn by_form(heap: Global, form: &str, words: &[&str]) -> Result<Answered, Fault> {
    match form {
        "sha256" => sha256(&every(heap, words)?),
        "pieces" => Ok(pieces(&every(heap, words)?)),
        "repeat" => counted(heap, words),
        "hmac" => hmac(&every(heap, words)?),
        "parts" => three_parts(&every(heap, words)?),
        "pbkdf2" => derived(heap, words),
        "equal" => equal(&every(heap, words)?),
        _ => Err(Fault::Form),
    }
}

impl Answer for Answered {
    fn of_line(heap: Global, line: &str) -> Result<Answered, Fault> {
        let words: Vec<&str> = line.split(' ').collect(heap)?;
        let [form, rest @ ..] = words.as_slice() else {
            return Err(Fault::Form);
        };
        by_form(heap, form, rest)
    }
}
