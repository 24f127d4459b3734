/// What stands behind the separators at the front of a text: a lexeme, nothing, a byte that begins none, or a remark that
/// stays open.
pub(crate) fn behind_separators(text: &[u8]) -> &[u8] {
    let mut rest = text;
    for _ in 0..text.len() {
        match behind_separator(rest) {
            Some(behind) => rest = behind,
            None => return rest,
        }
    }
    rest
}

/// What stands behind the separator at the front of a text, if one stands there.
fn behind_separator(text: &[u8]) -> Option<&[u8]> {
    if let Some(remark) = text.strip_prefix(b"(*") {
        return behind_remark(remark);
    }
    if let Some(remark) = text.strip_prefix(b"--") {
        return Some(behind_line(remark));
    }
    match text.split_first() {
        Some((byte, behind)) => { if is_blank(*byte) { Some(behind) } else { None } }
        None => None,
    }
}

/// What stands behind an embedded remark, within it: others may stand in it.
fn behind_remark(text: &[u8]) -> Option<&[u8]> {
    let mut open = 1usize;
    let mut rest = text;
    for _ in 0..text.len() {
        if let Some(inside) = rest.strip_prefix(b"(*") {
            open = open.saturating_add(1);
            rest = inside;
        } else if let Some(outside) = rest.strip_prefix(b"*)") {
            open = open.saturating_sub(1);
            rest = outside;
            if open == 0 {
                return Some(rest);
            }
        } else {
            rest = behind_first(rest);
        }
    }
    None
}

/// What stands behind a tail remark, within it.
fn behind_line(text: &[u8]) -> &[u8] {
    let mut rest = text;
    for byte in text {
        rest = behind_first(rest);
        if *byte == b'\n' {
            return rest;
        }
    }
    rest
}

fn behind_first(text: &[u8]) -> &[u8] {
    match text.split_first() {
        Some((_first, behind)) => behind,
        None => text,
    }
}

fn is_blank(byte: u8) -> bool {
    byte <= b' ' || byte == 127
}
