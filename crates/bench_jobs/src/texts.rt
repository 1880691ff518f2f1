//! The texts of scripts, written plainly and not, and of conversations.

use crate::dice::Dice;
use crate::mix::Mix;
use anyhow::Result;
use arb_script::{Script, order_line};
use std::alloc::{AllocError, Global};

/// A script of so many orders of a mixture, written plainly.
pub fn plain(alloc: Global, mut mix: Mix, orders: u64) -> Result<String, AllocError> {
    let mut text = String::new(alloc);
    for _ in 0..orders {
        let (client, order) = mix.next_order();
        text.push_str(order_line(client, &order).as_str())?;
    }
    Ok(text)
}

/// The script of a text of so many orders of a mixture.
pub fn script(alloc: Global, mix: Mix, orders: u64) -> Result<Script> {
    let text = plain(alloc, mix, orders)?;
    Ok(Script::from_text(alloc, text.as_str())?)
}

/// What may stand between two words.
const GAPS: [&str; 4] = ["\t", "  ", " \t ", "   "];

/// What may end a line.
const ENDS: [&str; 4] = ["\r\n", " \n", "\t\r\n", "\n\n"];

/// Appends a line with other gaps and another end.
fn push_unusual(text: &mut String, line: &str, way: usize) -> Result<(), AllocError> {
    for byte in line.as_bytes() {
        match *byte {
            b' ' => text.push_str(GAPS[way % 4])?,
            b'\n' => text.push_str(ENDS[way % 4])?,
            other => text.push(char::from(other))?,
        }
    }
    Ok(())
}

/// A script of so many orders of a mixture: half of its lines have tabs, CRs or several spaces, and comments stand between.
pub fn unusual(
    alloc: Global,
    mut mix: Mix,
    orders: u64,
    mut dice: Dice,
) -> Result<String, AllocError> {
    let mut text = String::new(alloc);
    for _ in 0..orders {
        let (client, order) = mix.next_order();
        let line = order_line(client, &order);
        let way = dice.roll(10) as usize;
        match way {
            0..4 => push_unusual(&mut text, line.as_str(), way)?,
            4 => {
                text.push_str("# the runtime was told so by its scheduler\n")?;
                text.push_str(line.as_str())?
            }
            _ => text.push_str(line.as_str())?,
        }
    }
    Ok(text)
}

/// A conversation of so many orders of a mixture, in which about each line of so many asks who has each core.
pub fn asking(
    alloc: Global,
    mut mix: Mix,
    orders: u64,
    each: u64,
    mut dice: Dice,
) -> Result<String, AllocError> {
    let mut text = String::new(alloc);
    for _ in 0..orders {
        if dice.roll(each.max(1)) == 0 {
            text.push_str("cores\n")?;
        }
        let (client, order) = mix.next_order();
        text.push_str(order_line(client, &order).as_str())?;
    }
    Ok(text)
}

/// Lines of which each has another fault.
const FAULTY: [&str; 6] = [
    "0.0 blok\n",
    "17.0 join\n",
    "3.1 ask 300\n",
    "2.2\n",
    "clock tick 12 13\n",
    "   \t\n",
];

/// A conversation of so many lines, of which each third is faulty and some are too long.
pub fn faulty(
    alloc: Global,
    mut mix: Mix,
    lines: u64,
    mut dice: Dice,
) -> Result<String, AllocError> {
    let mut text = String::new(alloc);
    for _ in 0..lines {
        match dice.roll(12) {
            0..4 => text.push_str(FAULTY[dice.roll(6) as usize])?,
            4 => {
                for _ in 0..30 {
                    text.push_str("0.0 status ")?;
                }
                text.push_str("\n")?
            }
            _ => {
                let (client, order) = mix.next_order();
                text.push_str(order_line(client, &order).as_str())?
            }
        }
    }
    Ok(text)
}

/// Request rows of all applications, each at all levels.
pub fn rows(alloc: Global, dice: &mut Dice) -> Result<String, AllocError> {
    let mut text = String::new(alloc);
    for app in 0..16 {
        let row = format!(in alloc; "{app}")?;
        text.push_str(row.as_str())?;
        for _ in 0..8 {
            let entry = dice.roll(20);
            let word = format!(in alloc; " {entry}")?;
            text.push_str(word.as_str())?;
        }
        text.push_str("\n")?;
    }
    Ok(text)
}
