// A script's lines, and the step that a line asks for.
ghost use Rattle.std.specs.Prelude.{◌≡◌, ◌≤◌, IfSome, IfOk, vec_items};
ghost use Rattle.std.specs.Option.{option_map};
ghost use Rattle.revise.specs.Scripts.{cut, number_of, numbers_of, strike_read, enter_read, change_read};
ghost use Rattle.revise.specs.Steps.{change_of};

use std::alloc::{AllocError, Global};

#[derive(Drop)]
pub enum Step {
    Strike(usize),
    Enter { left: u8, right: Vec<u8> },
}

// The number that digits in base ten stand for, if there are some and it is at most `most`.
// Stays digit by digit: `parse` takes a sign too, and asks for a text, which these bytes need not be.
fn number(digits: &[u8], most: u16) -> Option<u16>
    ensures value { result ≡ number_of most digits.now }
    ensures bound { IfSome result (λ n. n ≤ most) }
{
    if digits.is_empty() {
        return None;
    }
    let mut value = 0;
    for byte in digits {
        if !byte.is_ascii_digit() {
            return None;
        }
        let next = 10 * value + (*byte - b'0') as u32;
        if next > most as u32 {
            return None;
        }
        value = next;
    }
    Some(value as u16)
}

// The codes that a text has, one blank apart.
fn read_codes(heap: Global, text: &[u8]) -> Result<Option<Vec<u8>>, AllocError>
    ensures { IfOk result (λ o. option_map vec_items o ≡ numbers_of 255 (cut 32 text.now)) }
{
    let mut read = Vec::new(heap);
    for word in text.split(|byte| *byte == b' ') {
        let Some(code) = number(word, 255) else {
            return Ok(None);
        };
        read.push(code as u8)?;
    }
    Ok(Some(read))
}

// The step that what follows the word `strike` asks for.
fn read_strike(text: &[u8]) -> Option<Step>
    ensures { option_map change_of result ≡ strike_read text.now }
{
    number(text, u16::MAX).map(|number| Step::Strike(number as usize))
}

// The step that what follows the word `enter` asks for.
fn read_enter(heap: Global, text: &[u8]) -> Result<Option<Step>, AllocError>
    ensures { IfOk result (λ o. option_map change_of o ≡ enter_read text.now) }
{
    let Some(mut right) = read_codes(heap, text)? else {
        return Ok(None);
    };
    if right.is_empty() {
        return Ok(None);
    }
    let left = right.remove(0);
    Ok(Some(Step::Enter { left, right }))
}

impl Step {
    // The step that a line asks for, if it can be read.
    pub fn parse(heap: Global, line: &[u8]) -> Result<Option<Step>, AllocError>
        ensures { IfOk result (λ o. option_map change_of o ≡ change_read line.now) }
    {
        if let Some(text) = line.strip_prefix(b"strike ") {
            return Ok(read_strike(text));
        }
        if let Some(text) = line.strip_prefix(b"enter ") {
            return read_enter(heap, text);
        }
        Ok(None)
    }
}
