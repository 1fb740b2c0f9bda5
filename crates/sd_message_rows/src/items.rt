//! Rows: words and bytes in hexadecimal digits, and how they read.
//!
//! An item is joined by `+` of words of eight hexadecimal digits and of `hh*n` for n equal bytes.

use sd_outside::ByteList;
use std::alloc::Global;
use std::test::Fail;

fn push_item(bytes: &mut ByteList, item: &str) -> Result<(), Fail> {
    for piece in item.split('+') {
        match piece.split_once('*') {
            Some((byte, times)) => {
                let byte = u8::from_str_radix(byte, 16)?;
                for _ in 0..times.parse::<u32>()? {
                    bytes.push_slice(&[byte])?;
                }
            }
            None => bytes.push_slice(&u32::from_str_radix(piece, 16)?.to_be_bytes())?,
        }
    }
    Ok(())
}

/// The bytes of items.
pub fn bytes_of(alloc: Global, items: &str) -> Result<ByteList, Fail> {
    let mut bytes = ByteList::empty(alloc);
    for item in items.split(' ') {
        push_item(&mut bytes, item)?;
    }
    Ok(bytes)
}

/// Bytes in hexadecimal digits.
pub fn digits(alloc: Global, bytes: &[u8]) -> Result<String, Fail> {
    let mut text = String::new(alloc);
    for byte in bytes {
        text.push_str(format!(in alloc; "{byte:02x}")?.as_str())?;
    }
    Ok(text)
}

/// A row's procedure, bytes and the places of its items.
#[derive(Drop)]
pub struct Row {
    pub proc_no: u32,
    pub bytes: ByteList,
    places: Vec<usize>,
}

/// A row, and how it reads.
pub fn row_of(alloc: Global, line: &str) -> Result<(Row, &str), Fail> {
    let (number, row) = line.split_once(" | ").ok_or("no bar")?;
    let (items, want) = row.split_once(" | ").ok_or("no bar")?;
    let proc_no = number.parse::<u32>()?;
    let mut bytes = ByteList::empty(alloc);
    let mut places = Vec::new(alloc);
    for item in items.split(' ') {
        places.push(bytes.as_slice().len())?;
        push_item(&mut bytes, item)?;
    }
    let row = Row {
        proc_no,
        bytes,
        places,
    };
    Ok((row, want))
}

impl Row {
    /// The place of the item that isn't whole where the row is cut after so many bytes.
    pub fn cut_at(&self, len: usize) -> usize {
        let mut at = 0;
        for place in self.places.iter() {
            if *place <= len {
                at = *place;
            }
        }
        at
    }

    /// The row, and one word more.
    pub fn and_a_word(&self) -> Result<ByteList, Fail> {
        let mut longer = self.bytes.copy()?;
        longer.push_slice(&[0; 4])?;
        Ok(longer)
    }
}
