//! What a crash may leave of a host's disks, and what a host that is opened over that answers.
use crate::host_cases::asking::ask_alone;
use crate::host_cases::opening::host_over;
use std::alloc::Global;
use std::hash::RandomState;
use up_case_lines::{Answer, Fault, Words};
use up_disk::{Disks, MemDisk};
use up_host::Host;

/// How many images of a disk there are.
const CHOICES: u64 = 8;

/// A host that is to be opened, `OPERATOR OWNERS`, and the lines that are then asked of it.
#[derive(Clone, Copy)]
pub struct Asked<'a> {
    pub whose: Words<'a>,
    pub lines: &'a str,
}

/// For each image, the same of each disk: whether a host is opened over them, and what it answers. Images that tell the same stand
/// together, by their numbers.
pub fn add_images(
    alloc: Global,
    random: RandomState,
    disks: Disks<MemDisk>,
    asked: Asked<'_>,
    answer: &mut Answer,
) -> Result<(), Fault> {
    let disks = listed(alloc, disks)?;
    let mut told = Vec::new(alloc);
    let gathered = gather(alloc, random, &disks, asked, &mut told);
    drop(disks);
    add_alike(&told, answer);
    drop(told);
    gathered
}

// The disks, one after the other.
fn listed(alloc: Global, disks: Disks<MemDisk>) -> Result<Vec<MemDisk>, Fault> {
    let mut left = disks;
    let mut list = Vec::new(alloc);
    for _disk in 0..left.len() {
        move_one(&mut left, &mut list)?;
    }
    drop(left);
    Ok(list)
}

fn move_one(left: &mut Disks<MemDisk>, list: &mut Vec<MemDisk>) -> Result<(), Fault> {
    if let Some(disk) = left.take() {
        list.push(disk)?;
    }
    Ok(())
}

// What each image tells, in order.
fn gather(
    alloc: Global,
    random: RandomState,
    disks: &[MemDisk],
    asked: Asked<'_>,
    told: &mut Vec<String>,
) -> Result<(), Fault> {
    for choice in 0..CHOICES {
        told.push(image_told(alloc, random, disks, choice, asked)?)?;
    }
    Ok(())
}

fn image_told(
    alloc: Global,
    random: RandomState,
    disks: &[MemDisk],
    choice: u64,
    asked: Asked<'_>,
) -> Result<String, Fault> {
    let mut answer = Answer::new(alloc);
    match add_image(alloc, random, disks, choice, asked, &mut answer) {
        Ok(()) => Ok(answer.finish()?),
        Err(fault) => {
            drop(answer);
            Err(fault)
        }
    }
}

fn add_image(
    alloc: Global,
    random: RandomState,
    disks: &[MemDisk],
    choice: u64,
    asked: Asked<'_>,
    answer: &mut Answer,
) -> Result<(), Fault> {
    let images = images_of(alloc, disks, choice)?;
    match host_over(alloc, random, images, asked.whose, answer)? {
        Some(host) => add_answers(alloc, host, asked.lines, answer),
        None => Ok(()),
    }
}

// What a crash now may leave, by the choice, of each disk.
fn images_of(alloc: Global, disks: &[MemDisk], choice: u64) -> Result<Disks<MemDisk>, Fault> {
    let mut images = Disks::new(alloc);
    for disk in disks {
        add_one(disk, choice, &mut images)?;
    }
    Ok(images)
}

fn add_one(disk: &MemDisk, choice: u64, images: &mut Disks<MemDisk>) -> Result<(), Fault> {
    images.push(image_of(disk, choice)?)?;
    Ok(())
}

// An image, of which nothing else is known.
fn image_of(disk: &MemDisk, choice: u64) -> Result<MemDisk, Fault> {
    Ok(disk.image(choice)?)
}

fn add_answers(
    alloc: Global,
    host: Host<MemDisk>,
    lines: &str,
    answer: &mut Answer,
) -> Result<(), Fault> {
    let mut host = host;
    let added = ask_all(alloc, &mut host, lines, answer);
    drop(host);
    added
}

fn ask_all(
    alloc: Global,
    host: &mut Host<MemDisk>,
    lines: &str,
    answer: &mut Answer,
) -> Result<(), Fault> {
    for line in lines.split("; ") {
        answer.part();
        ask_alone(alloc, host, Words::new(line), answer)?;
    }
    Ok(())
}

/// Adds each text that was told, behind the places at which it was, with a bar between.
pub fn add_alike(told: &[String], answer: &mut Answer) {
    for (place, text) in told.iter().enumerate() {
        if is_first(told, place, text.as_str()) {
            add_bar(answer);
            add_places(told, text.as_str(), answer);
            answer.word(text.as_str());
        }
    }
}

// Whether no earlier one is this text.
fn is_first(told: &[String], place: usize, text: &str) -> bool {
    for (at, one) in told.iter().enumerate() {
        if at < place && one.as_str() == text {
            return false;
        }
    }
    true
}

fn add_bar(answer: &mut Answer) {
    if !answer.is_empty() {
        answer.word("|");
    }
}

fn add_places(told: &[String], text: &str, answer: &mut Answer) {
    for (place, one) in told.iter().enumerate() {
        if one.as_str() == text {
            answer.number(place as u64);
        }
    }
}
