// Taking devices out of their images, and putting them back.
ghost use Rattle.std.specs.Prelude.{◌≡◌, ◌≤◌, ◌<◌, ℕ, List, [], false, true, IfErr, IfOk, MatchResult, length, map, vec_capacity};
ghost use Rattle.std.specs.List.{list_any};
ghost use Rattle.std.specs.Str.{bytes_eq};
ghost use Rattle.md_images.specs.Images.{allows, asks};
ghost use Rattle.md_images.specs.Taking.{ArePut, IsNameRefused, IsDistinct, RefusesImages, TakesFirst, TakesImages, Text, name_at, names_of, word_of};

use crate::access::Access;
use crate::fault::ImagesFault;
use crate::image_refusal::ImageRefusal;
use crate::image_word::ImageWord;
use crate::images::Images;
use std::alloc::Global;

fn is_among(words: &[ImageWord<'_>], name: &str) -> bool
    ensures { result ≡ list_any (λ w. bytes_eq w.name.now name.now) words.now }
{
    words.iter().any(|word| word.name == name)
}

// Takes the devices of the words, up to the first that is the same as an earlier one or whose image
// is refused.
fn take_each<I: Images>(
    access: Access,
    images: &mut I,
    words: &[ImageWord<'_>],
    devices: &mut Vec<I::Dev>,
) -> Result<(), ImageRefusal>
    requires empty { devices.old.items ≡ [] }
    requires room { length words.now ≤ vec_capacity devices.old }
    ensures known { I.known images.new ≡ I.known images.old }
    ensures looks { I.known images.old ≡ true → asks access ≡ false → (n : Text) → I.asked images.new n ≡ I.asked images.old n }
    ensures took { TakesFirst (I.known images.old) (λ n. allows access (I.changeable images.old n)) (I.device_at images.old) (I.device_at images.new) (names_of (map word_of words.now)) (length devices.new.items) devices.new.items }
    ensures held { I.known images.old ≡ true → (i : ℕ) → i < length devices.new.items → I.holds images.new (name_at (names_of (map word_of words.now)) i) ≡ true }
    ensures ok { IfOk result (λ _. length devices.new.items ≡ length words.now) }
    ensures stopped { IfErr result (λ why. (length devices.new.items < length words.now) × IsNameRefused (I.known images.old) (λ n. allows access (I.changeable images.old n)) (I.device_at images.old) (names_of (map word_of words.now)) (length devices.new.items) why) }
{
    for place in 0..words.len() {
        let name = words[place].name;
        if is_among(&words[..place], name) {
            return Err(ImageRefusal::Repeated);
        }
        let device = match images.get(name, access) {
            Ok(device) => device,
            Err(fault) => return Err(ImageRefusal::Unopened(fault)),
        };
        if devices.push(device).is_err() {
            unreachable!()
        }
    }
    Ok(())
}

/// Puts devices back under the names of the words, in their order.
pub fn put_back<I: Images>(images: &mut I, words: &[ImageWord<'_>], mut devices: Vec<I::Dev>)
    requires few { length devices.items ≤ length words.now }
    requires distinct { IsDistinct (names_of (map word_of words.now)) (length devices.items) }
    requires held { I.known images.old ≡ true → (i : ℕ) → i < length devices.items → I.holds images.old (name_at (names_of (map word_of words.now)) i) ≡ true }
    ensures known { I.known images.new ≡ I.known images.old }
    ensures asked { I.known images.old ≡ true → (n : Text) → I.asked images.new n ≡ I.asked images.old n }
    ensures back { I.known images.old ≡ true → ArePut (I.device_at images.old) (I.device_at images.new) (names_of (map word_of words.now)) (length devices.items) devices.items }
{
    while let Some(device) = devices.pop() {
        images.put(words[devices.len()].name, device);
    }
}

/// Takes out the devices of the words, in their order, to look at them or to change them. Where one
/// is refused, those before it are put back. The list's memory is taken before any device is.
pub fn take_images<I: Images>(
    alloc: Global,
    access: Access,
    images: &mut I,
    words: &[ImageWord<'_>],
) -> Result<Vec<I::Dev>, ImagesFault>
    ensures known { I.known images.new ≡ I.known images.old }
    ensures looks { I.known images.old ≡ true → asks access ≡ false → (n : Text) → I.asked images.new n ≡ I.asked images.old n }
    ensures gives { MatchResult result (λ devices. TakesImages (I.known images.old) (λ n. allows access (I.changeable images.old n)) (I.device_at images.old) (I.device_at images.new) (map word_of words.now) devices.items)
        (RefusesImages (images.new ≡ images.old) (I.known images.old) (λ n. allows access (I.changeable images.old n)) (I.device_at images.old) (I.device_at images.new) (map word_of words.now)) }
    ensures held { MatchResult result (λ _. I.known images.old ≡ true → (i : ℕ) → i < length words.now → I.holds images.new (name_at (names_of (map word_of words.now)) i) ≡ true) (λ _. Unit {0}) }
{
    let Ok(mut devices) = Vec::with_capacity(alloc, words.len()) else {
        return Err(ImagesFault::NoMemory);
    };
    match take_each(access, images, words, &mut devices) {
        Ok(()) => Ok(devices),
        Err(why) => {
            let place = devices.len();
            put_back(images, words, devices);
            Err(ImagesFault::BadImage(words[place].index, why))
        }
    }
}
