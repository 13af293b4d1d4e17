// Bytes that are put one behind the other, on a page that the caller lends.

#![tactic(auto)]

ghost use Rattle.page.specs.Page.{Room, Puts};

// The page, and where the next bytes go.
#[derive(Drop)]
pub struct Page<'a> {
    pub bytes: &'a mut [u8],
    pub at: usize,
}

impl Page<'_> {
    pub fn put(&mut self, text: &[u8])
        requires { Room text.now self.old }
        ensures { Puts text.now self.old self.new }
    {
        let end = self.at + text.len();
        self.bytes[self.at..end].copy_from_slice(text);
        self.at = end;
    }
}
