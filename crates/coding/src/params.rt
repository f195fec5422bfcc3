// The parameters of a request.
ghost use Rattle.std.specs.Prelude.{◌≡◌};
ghost use Rattle.coding.specs.Params.{param_part};

use texts::scan;

// How a request came.
#[derive(Clone, Copy)]
pub enum Method {
    Get,
    Post,
}

// What follows the first question mark of a GET's target, or a POST's body.
pub fn parameters<'a>(method: Method, target: &'a [u8], body: &'a [u8]) -> &'a [u8]
    ensures { result.now ≡ param_part method target.now body.now }
{
    match method {
        Method::Get => scan::after_byte(target, b'?'),
        Method::Post => body,
    }
}
