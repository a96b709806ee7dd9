//! Rows whose outcome comes of the row and the page's files alone.
use crate::{
    chains, lists, names, numbers, plans, simulators, sites, streams, tables, units, values,
};
use case_pages::{Block, Outcomes, Trouble};
use std::alloc::Global;

/// Rows of a kind, which is a word behind a fence's `rows`.
#[derive(Drop)]
pub(crate) struct Rows<'a> {
    pub(crate) alloc: Global,
    pub(crate) kind: &'a str,
    pub(crate) page: &'a [Block<'a>],
}

impl Outcomes for Rows<'_> {
    fn outcome(&mut self, input: &str) -> Result<String, Trouble> {
        let Rows { alloc, kind, page } = *self;
        match kind {
            "requests" => units::request(alloc, input),
            "replies" => units::reply(alloc, input),
            "frames" => streams::frame(alloc, input),
            "streams" => streams::stream(alloc, input),
            "sizes" => tables::sizes(alloc, input),
            "images" => simulators::image(alloc, input),
            "read" => values::read(alloc, input),
            "write" => values::write(alloc, input),
            "read in order" => values::read_in_order(alloc, input),
            "write in order" => values::write_in_order(alloc, input),
            "scaled" => values::scaled(alloc, input),
            "shown" => values::shown(alloc, input),
            "shown in order" => values::shown_in_order(alloc, input),
            "types" => names::kind(alloc, input),
            "numbers" => numbers::number(alloc, input),
            "scales" => numbers::scale(alloc, input),
            "chains" => chains::chain(alloc, input),
            "common" => chains::common_model(alloc, input),
            "records" => lists::records(alloc, page, input),
            "records with words" => lists::records_with_words(alloc, page, input),
            "lists" => lists::list(alloc, page, input),
            "list beginnings" => lists::beginnings(alloc, page, input),
            "sites" => sites::site(alloc, input),
            "devices" => sites::devices(alloc, input),
            "names" => sites::name(alloc, page, input),
            "plans" => plans::plan_of(alloc, input),
            _ => Err(Trouble::Page("no such kind of rows")),
        }
    }
}
