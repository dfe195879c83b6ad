// Lines of known values, as a crate reads its own: into memory of the heap, or without it.
#[cfg(test)]
mod tests {
    use known_values::{HeaplessVector, Vector, compare};
    use std::alloc::{AllocError, Global};

    // A text, which the heap keeps, and how many bytes it has.
    #[derive(Drop)]
    struct Measured {
        text: Vec<u8>,
        length: usize,
    }

    impl Vector for Measured {
        fn read(alloc: Global, line: &str) -> Result<Option<Measured>, AllocError> {
            let Some((word, length)) = line.split_once(' ') else {
                return Ok(None);
            };
            let mut text = vec![in alloc]?;
            text.extend_from_slice(word.as_bytes())?;
            Ok(
                length
                    .parse::<usize>()
                    .ok()
                    .map(|length| Measured { text, length }),
            )
        }

        fn holds(&self) -> bool {
            self.text.len() == self.length
        }
    }

    // A number and its square.
    #[derive(Drop)]
    struct Square {
        side: u16,
        area: u32,
    }

    impl HeaplessVector for Square {
        fn read(line: &str) -> Option<Square> {
            let (side, area) = line.split_once(' ')?;
            let side = side.parse::<u16>().ok()?;
            let area = area.parse::<u32>().ok()?;
            Some(Square { side, area })
        }

        fn holds(&self) -> bool {
            u32::from(self.side) * u32::from(self.side) == self.area
        }
    }

    // Whether the values of a line hold, if it has any.
    fn verdict<V: Vector>(alloc: Global, line: &str) -> Result<Option<bool>, AllocError> {
        Ok(V::read(alloc, line)?.map(|vector| vector.holds()))
    }

    fn heapless_verdict<V: HeaplessVector>(line: &str) -> Option<bool> {
        V::read(line).map(|vector| vector.holds())
    }

    #[test]
    fn vectors_are_read_into_the_heap(rt: HostRuntime) {
        assert_eq!(rt; verdict::<Measured>(rt.alloc(), "valve 5"), Ok(Some(true)));
        assert_eq!(rt; verdict::<Measured>(rt.alloc(), "valve 4"), Ok(Some(false)));
        assert_eq!(rt; verdict::<Measured>(rt.alloc(), "valve"), Ok(None));
    }

    #[test]
    fn vectors_are_read_without_the_heap(rt: HostRuntime) {
        assert_eq!(rt; heapless_verdict::<Square>("7 49"), Some(true));
        assert_eq!(rt; heapless_verdict::<Square>("7 48"), Some(false));
        assert_eq!(rt; heapless_verdict::<Square>("49"), None);
    }

    #[test]
    fn an_empty_input_is_compared(rt: HostRuntime) {
        assert!(rt; compare::<Measured>(rt, "texts").is_ok());
    }
}
