//! The attributes of actors by their names.
use room_wiring::ClassNames;
use view_pages::Page;

/// Numbers with blanks between them.
fn put_numbers(page: &mut Page, numbers: &[i64]) {
    for number in numbers {
        page.put(b" ");
        page.put_signed(*number);
    }
}

/// The numbers of an attribute: those before, and those after where they are others.
fn put_change(page: &mut Page, before: &[i64], after: &[i64]) {
    put_numbers(page, before);
    if before != after {
        page.put(b" ->");
        put_numbers(page, after);
    }
}

/// The attributes of an actor of a class by their names: the numbers before, and those after where they are others.
/// Both are in order of declaration.
pub fn put_attributes(page: &mut Page, class: &ClassNames, before: &[i64], after: &[i64]) {
    let mut lead: &[u8] = b"attributes: ";
    let mut start = 0usize;
    for attribute in class.attributes.as_slice() {
        let end = start.saturating_add(attribute.numbers as usize);
        page.put(lead);
        page.put(attribute.name.as_bytes());
        put_change(
            page,
            before.get(start..end).unwrap_or(&[]),
            after.get(start..end).unwrap_or(&[]),
        );
        lead = b", ";
        start = end;
    }
}

/// Those attributes of an actor of a class whose numbers are others than before: the numbers before, and those after.
/// Both are in order of declaration. Nothing where all are the same.
pub fn put_changed_attributes(page: &mut Page, class: &ClassNames, before: &[i64], after: &[i64]) {
    let mut lead: &[u8] = b"; attributes: ";
    let mut start = 0usize;
    for attribute in class.attributes.as_slice() {
        let end = start.saturating_add(attribute.numbers as usize);
        let old = before.get(start..end).unwrap_or(&[]);
        let new = after.get(start..end).unwrap_or(&[]);
        if old != new {
            page.put(lead);
            page.put(attribute.name.as_bytes());
            put_change(page, old, new);
            lead = b", ";
        }
        start = end;
    }
}
