//! The requests that `curl` makes: `curl [-i] [-s] [-S] [-X METHOD] [-d BODY] http://HOST/..`.
use case_pages::Trouble;
use std::alloc::{AllocError, Global};

/// What the words of a `curl` say.
#[derive(Clone, Copy)]
struct Call<'a> {
    method: &'a str,
    body: Option<&'a str>,
    url: &'a str,
    /// Whether the head of the answer is shown too.
    with_head: bool,
}

fn call_of(words: &[String]) -> Call<'_> {
    let mut call = Call {
        method: "GET",
        body: None,
        url: "",
        with_head: false,
    };
    let mut before = "";
    for word in words {
        let word = word.as_str();
        match before {
            "-X" => call.method = word,
            "-d" => call.body = Some(word),
            _ if word == "-i" => call.with_head = true,
            _ if !word.starts_with('-') => call.url = word,
            _ => {}
        }
        before = word;
    }
    call
}

/// The bytes of the request that these words make.
pub(crate) fn asked_by(alloc: Global, words: &[String]) -> Result<Vec<u8>, Trouble> {
    let call = call_of(words);
    let Some((host, path)) = call
        .url
        .strip_prefix("http://")
        .and_then(|rest| rest.split_once('/'))
    else {
        return Err(Trouble::Page("a curl without its URL"));
    };
    let method = call.method;
    let request = match call.body {
        None => format!(in alloc; "{method} /{path} HTTP/1.1\r\nHost: {host}\r\n\r\n")?,
        Some(body) => {
            let length = body.len();
            format!(in alloc;
                "{method} /{path} HTTP/1.1\r\nHost: {host}\r\nContent-Length: {length}\r\n\r\n{body}"
            )?
        }
    };
    Ok(Vec::from_slice(alloc, request.as_bytes())?)
}

/// What these words show of an answer: its body, or with `-i` all of it, each line without its carriage return.
pub(crate) fn shown(alloc: Global, words: &[String], answer: &str) -> Result<String, AllocError> {
    let part = if call_of(words).with_head {
        answer
    } else {
        match answer.split_once("\r\n\r\n") {
            Some((_, body)) => body,
            None => answer,
        }
    };
    let mut text = String::new(alloc);
    for line in part.lines() {
        text.push_str(line)?;
        text.push_str("\n")?;
    }
    Ok(text)
}
