// A case: one line of the input, and what is computed from it, by a function for each form.
use crate::answer::Answered;
use cases::{Answer, Fault, array, bytes};
use gcm::{Gcm, WrongTag};
use std::alloc::Global;

fn encrypt(heap: Global, words: &[&str]) -> Result<Answered, Fault> {
    let [key, iv, additional, text] = words else {
        return Err(Fault::Count);
    };
    let gcm = Gcm::new(&array(heap, key)?);
    let iv = array(heap, iv)?;
    let additional = bytes(heap, additional)?;
    let mut body = bytes(heap, text)?;
    let tag = gcm.encrypt(&iv, &additional, &mut body);
    Ok(Answered::Encrypted { body, tag })
}

fn decrypt(heap: Global, words: &[&str]) -> Result<Answered, Fault> {
    let [key, iv, additional, body, tag] = words else {
        return Err(Fault::Count);
    };
    let gcm = Gcm::new(&array(heap, key)?);
    let iv = array(heap, iv)?;
    let tag = array(heap, tag)?;
    let additional = bytes(heap, additional)?;
    let mut body = bytes(heap, body)?;
    match gcm.decrypt(&iv, &additional, &mut body, &tag) {
        Ok(()) => Ok(Answered::Decrypted(body)),
        Err(WrongTag) => Ok(Answered::WrongTag(body)),
    }
}

// By name, since a table of functions would list the same names and say no more.
impl Answer for Answered {
    fn of_line(heap: Global, line: &str) -> Result<Answered, Fault> {
        let words: Vec<&str> = line.split(' ').collect(heap)?;
        match words.as_slice() {
            ["encrypt", rest @ ..] => encrypt(heap, rest),
            ["decrypt", rest @ ..] => decrypt(heap, rest),
            _ => Err(Fault::Form),
        }
    }
}
