#![tactic(auto)]
// Url coding, and where the parameters of a request stand.
pub mod params;
pub mod url;
