// The files of the page by their paths.

ghost use Rattle.std.specs.Prelude.{◌≡◌, option_map};
ghost use Rattle.kl1_host_page.specs.Files.{file_view, file_at};

use crate::{api_js, dom_js, editor_js, index_html, page_css, page_js, shoens_js, waits_js};
use kl1_host_door::Content;

/// A file of the page.
#[derive(Clone, Copy)]
pub struct PageFile {
    pub content: Content,
    pub text: &'static str,
}

/// A file of this text.
fn file(content: Content, text: &'static str) -> PageFile
    ensures { file_view result ≡ (content, text.now) }
{
    PageFile { content, text }
}

/// The file at a path.
#[tactic(auto, unfolding(crate::specs::Files::file_at))]
pub fn file_at(path: &[u8]) -> Option<PageFile>
    ensures { option_map file_view result ≡ file_at path.now }
{
    if path == b"/".as_slice() {
        Some(file(Content::Html, index_html::TEXT))
    } else if path == b"/page.css".as_slice() {
        Some(file(Content::Css, page_css::TEXT))
    } else if path == b"/page.js".as_slice() {
        Some(file(Content::Script, page_js::TEXT))
    } else if path == b"/api.js".as_slice() {
        Some(file(Content::Script, api_js::TEXT))
    } else if path == b"/dom.js".as_slice() {
        Some(file(Content::Script, dom_js::TEXT))
    } else if path == b"/shoens.js".as_slice() {
        Some(file(Content::Script, shoens_js::TEXT))
    } else if path == b"/waits.js".as_slice() {
        Some(file(Content::Script, waits_js::TEXT))
    } else if path == b"/editor.js".as_slice() {
        Some(file(Content::Script, editor_js::TEXT))
    } else {
        None
    }
}
