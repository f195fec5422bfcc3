// Url coding, and where the parameters of a request stand.
use crate::print;
use coding::params::Method;
use coding::{params, url};
use texts::scan;
use vectors::show;

// The parameters of `GET` and a target, or of `POST` and a body, in brackets.
pub fn parameters(s: &[u8]) {
    let rest = scan::after_byte(s, b' ');
    match scan::before_byte(s, b' ') {
        b"GET" => bracketed(params::parameters(Method::Get, rest, b"")),
        b"POST" => bracketed(params::parameters(Method::Post, b"/x?y", rest)),
        _ => print::malformed(),
    }
}

fn bracketed(s: &[u8]) {
    io::write_all(1, b"[");
    io::write_all(1, s);
    io::write_all(1, b"]");
}

// The bytes of s, url-coded.
pub fn coded(s: &[u8]) {
    let mut space = io::buffer();
    let n = url::write_coded(s, &mut space, 0);
    io::write_all(1, scan::first_bytes(&space, n));
}

// The bytes that s codes.
pub fn decoded(s: &[u8]) {
    if url::well_coded(s) {
        let mut space = io::buffer();
        let n = url::decode(s, &mut space);
        show::bytes(scan::first_bytes(&space, n));
    } else {
        io::write_all(1, b"bad escape");
    }
}
