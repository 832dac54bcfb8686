//! A client over a cache of blocks, over a table of requests with their replies. The rows of a table come first, then the cache over it, and
//! then what is asked and got over it.
use crate::client::{add_got, add_lines, add_row_line, request_of};
use crate::terminal::calls_of;
use std::alloc::Global;
use up_cache::Cached;
use up_case_lines::{Answer, Fault, Topic, Words, number_of, path_of};
use up_client::{Ask, Failed, TableAsk, get};
use up_lists::Items;
use up_refs::Reference;
use up_text::reply_lines;
use up_wire::{Done, Reply, Request};

/// The rows of the next table, and the cache that is asked: there is none before the first line `cache`.
#[derive(Drop)]
pub struct CacheLines {
    rows: Option<Items<(Request, Reply)>>,
    cache: Option<Cached<TableAsk>>,
}

impl CacheLines {
    pub fn new() -> CacheLines {
        CacheLines {
            rows: None,
            cache: None,
        }
    }

    // The rows so far.
    fn rows(&mut self, alloc: Global) -> &mut Items<(Request, Reply)> {
        self.rows.get_or_insert_with(|| Items::new(alloc))
    }

    // `cache CAPACITY FAILS`: a cache of so many blocks over a table of the rows so far, of which the calls with these numbers fail.
    fn cache_line(&mut self, alloc: Global, mut words: Words<'_>) -> Result<(), Fault> {
        let capacity = words.number()?;
        let fails = calls_of(alloc, words.one()?)?;
        if capacity == 0 || capacity > 1024 {
            return Err(Fault::BadLine);
        }
        let rows = self.rows.take().unwrap_or(Items::new(alloc));
        self.cache = Some(Cached::new(alloc, TableAsk::new(rows, fails), capacity)?);
        Ok(())
    }
}

impl Topic for CacheLines {
    fn turn(&mut self, alloc: Global, line: &str, answer: &mut Answer) -> Result<(), Fault> {
        let mut words = Words::new(line);
        match words.word()? {
            "row" | "kept" => add_row_line(alloc, self.rows(alloc), line),
            "blocks" => add_blocks(alloc, self.rows(alloc), words.last_number()?),
            "cache" => self.cache_line(alloc, words),
            keyword => match &mut self.cache {
                Some(cache) => cached_line(alloc, cache, keyword, words, answer),
                None => Err(Fault::BadLine),
            },
        }
    }
}

fn cached_line(
    alloc: Global,
    cache: &mut Cached<TableAsk>,
    keyword: &str,
    words: Words<'_>,
    answer: &mut Answer,
) -> Result<(), Fault> {
    match keyword {
        "get" => get_line(alloc, cache, words, answer),
        "ask" => ask_line(alloc, cache, words, answer),
        "fetch" => fetch_line(alloc, cache, words, answer),
        "fetches" => fetches_line(alloc, cache, words, answer),
        "counts" => {
            counts_line(cache, answer);
            Ok(())
        }
        _ => Err(Fault::BadLine),
    }
}

// `get PATH`: what is got there.
fn get_line(
    alloc: Global,
    cache: &mut Cached<TableAsk>,
    mut words: Words<'_>,
    answer: &mut Answer,
) -> Result<(), Fault> {
    let path = path_of(alloc, words.one()?)?;
    let got = get(alloc, cache, &path);
    let added = add_got(alloc, &got, answer);
    drop(got);
    added
}

// `ask HEX`: the lines of the reply to the request that this message carries.
fn ask_line(
    alloc: Global,
    cache: &mut Cached<TableAsk>,
    mut words: Words<'_>,
    answer: &mut Answer,
) -> Result<(), Fault> {
    let request = request_of(alloc, words.one()?)?;
    let given = cache.ask(alloc, &request);
    drop(request);
    add_given(alloc, &given, answer)
}

fn add_given(
    alloc: Global,
    given: &Result<Reply, Failed>,
    answer: &mut Answer,
) -> Result<(), Fault> {
    match given {
        Ok(reply) => {
            let lines = reply_lines(alloc, reply)?;
            add_lines(alloc, lines.as_slice(), answer);
        }
        Err(Failed) => {
            answer.part();
            answer.word("failed");
        }
    }
    Ok(())
}

// `blocks N`: rows for N blocks, of which the one with the number I, from 0, has the digits of I.
fn add_blocks(alloc: Global, rows: &mut Items<(Request, Reply)>, count: u64) -> Result<(), Fault> {
    for number in 0..count {
        add_block(alloc, rows, number)?;
    }
    Ok(())
}

fn add_block(alloc: Global, rows: &mut Items<(Request, Reply)>, number: u64) -> Result<(), Fault> {
    let request = block_asked(alloc, number)?;
    match number.to_string(alloc) {
        Ok(digits) => push_row(rows, request, digits),
        Err(error) => {
            drop(request);
            Err(Fault::from(error))
        }
    }
}

fn push_row(
    rows: &mut Items<(Request, Reply)>,
    request: Request,
    digits: String,
) -> Result<(), Fault> {
    let bytes = Items::from_vec(digits.into_bytes());
    rows.push((request, Reply::Ok(Done::Bytes(bytes))))?;
    Ok(())
}

// The request for the block with a number.
fn block_asked(alloc: Global, number: u64) -> Result<Request, Fault> {
    let digits = number.to_string(alloc)?;
    let text = Reference::of(digits.as_bytes()).text(alloc)?;
    Ok(Request::Get(Items::from_vec(text.into_bytes())))
}

// `fetch LIST`: the lines of the replies to the requests for the blocks with these numbers, joined by commas.
fn fetch_line(
    alloc: Global,
    cache: &mut Cached<TableAsk>,
    mut words: Words<'_>,
    answer: &mut Answer,
) -> Result<(), Fault> {
    for number in words.one()?.split(',') {
        fetch(alloc, cache, number_of(number)?, answer)?;
    }
    Ok(())
}

fn fetch(
    alloc: Global,
    cache: &mut Cached<TableAsk>,
    number: u64,
    answer: &mut Answer,
) -> Result<(), Fault> {
    let request = block_asked(alloc, number)?;
    let given = cache.ask(alloc, &request);
    drop(request);
    add_given(alloc, &given, answer)
}

// `fetches FROM TO`: asks for the blocks with the numbers from FROM up to TO, and answers of how many the bytes came.
fn fetches_line(
    alloc: Global,
    cache: &mut Cached<TableAsk>,
    mut words: Words<'_>,
    answer: &mut Answer,
) -> Result<(), Fault> {
    let (from, to) = words.two_numbers()?;
    let mut came: u64 = 0;
    for number in from..to {
        if is_fetched(alloc, cache, number)? {
            came = came.saturating_add(1);
        }
    }
    answer.number(came);
    Ok(())
}

fn is_fetched(alloc: Global, cache: &mut Cached<TableAsk>, number: u64) -> Result<bool, Fault> {
    let request = block_asked(alloc, number)?;
    let given = cache.ask(alloc, &request);
    drop(request);
    let same = has_digits(alloc, &given, number);
    drop(given);
    same
}

fn has_digits(alloc: Global, given: &Result<Reply, Failed>, number: u64) -> Result<bool, Fault> {
    let digits = number.to_string(alloc)?;
    Ok(match given {
        Ok(Reply::Ok(Done::Bytes(bytes))) => bytes.as_slice() == digits.as_bytes(),
        _ => false,
    })
}

// `counts`: how many requests for blocks were passed on, how many were answered from the cache, and how many blocks are held.
fn counts_line(cache: &Cached<TableAsk>, answer: &mut Answer) {
    answer.number(cache.asked());
    answer.number(cache.kept());
    answer.number(cache.len());
}
