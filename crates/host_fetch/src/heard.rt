ghost use Rattle.std.specs.Prelude.{◌≡◌, [], Some, IfOk, IfSome, OnErr, OnOk};
ghost use Rattle.std.specs.Option.{option_copied};
ghost use Rattle.image_depot.specs.Key.{Shelves};
ghost use Rattle.image_depot.specs.Reply.{IsSentOf, sent_image, sent_page};
ghost use Rattle.host_fetch.specs.Heard.{AreHeardOf, KeepsOthers, found};

use image_depot::Sent;
use std::alloc::{AllocError, Global};
use std::collections::BTreeMap;
use std::marker::Model;

/// Replies that were heard from others, by the numbers of their images and pages. Contracts see in it a list of
/// these numbers, each with its reply.
#[derive(Drop)]
pub struct Heard {
    replies: BTreeMap<(u32, u32), Sent>,
}

impl Model for Heard {
    ghost use Rattle.std.specs.List.{All};
    ghost use Rattle.host_fetch.specs.Heard.{IsAtItsPlace, Replies};

    ghost Value = { Replies };

    ghost view = { λ h. h.replies.entries };

    ghost invariant = { λ h. All IsAtItsPlace h.replies.entries };
}

impl Heard {
    /// No reply was heard.
    pub fn new(alloc: Global) -> Heard
        ensures { result ≡ [] }
    {
        Heard {
            replies: BTreeMap::new(alloc),
        }
    }

    /// Takes in a reply, which is found from now on, in place of an earlier one with the same page. All others are
    /// found as before.
    pub fn hear(&mut self, sent: Sent) -> Result<(), AllocError>
        ensures found { OnOk result (found self.new (sent_image sent) (sent_page sent) ≡ Some sent) }
        ensures others { OnOk result (KeepsOthers sent self.old self.new) }
        ensures kept { (depot : Shelves) → IsSentOf depot sent → AreHeardOf depot self.old → AreHeardOf depot self.new }
        ensures err { OnErr result (self.new ≡ self.old) }
    {
        let place = (sent.image(), sent.page());
        let Ok(_) = self.replies.insert(place, sent) else {
            return Err(AllocError);
        };
        Ok(())
    }

    /// The reply with a page of an image, if one was heard.
    pub fn reply(&self, image: u32, page: u32) -> Option<&Sent>
        ensures value { option_copied result ≡ found self.now image page }
        ensures is { IfSome result (λ sent. (sent_image sent.now ≡ image) × (sent_page sent.now ≡ page)) }
        ensures kept { (depot : Shelves) → AreHeardOf depot self.now → IfSome result (λ sent. IsSentOf depot sent.now) }
    {
        self.replies.get(&(image, page))
    }
}
