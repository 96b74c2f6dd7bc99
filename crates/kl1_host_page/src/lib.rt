//! The files of the browser's page.
#![tactic(auto)]

mod api_js;
mod dom_js;
mod editor_js;
mod files;
mod index_html;
mod page_css;
mod page_js;
mod shoens_js;
mod waits_js;

pub use files::{PageFile, file_at};
