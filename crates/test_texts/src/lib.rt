// Texts and their answers, by example.
#![tactic(auto)]

#[cfg(test)]
mod tests {
    use print::rows::{Parting, push_rows};
    use report::stands::stands_at;
    use report::{Form, View, answer_to_text};
    use std::alloc::Global;
    use std::test::Fail;
    use text::draft::Draft;
    use text_locate::place::place_of;

    // The number and the place of a refusal; None where the text is taken. Here and below the heap is handed on with a text to one call.
    fn refused(heap: Global, text: &[u8]) -> Option<(u64, u64)> {
        match answer_to_text(heap, text, View::Heights(Form::Rows)) {
            Err(why) => why
                .refusal()
                .map(|refusal| (refusal.number(), refusal.place())),
            Ok(_) => None,
        }
    }

    // Whether a text has this answer.
    fn answers(heap: Global, text: &[u8], view: View, answer: &str) -> bool {
        answer_to_text(heap, text, view).is_ok_and(|said| said.as_str() == answer)
    }

    // Whether a text has these heights and cost.
    fn heights(heap: Global, text: &[u8], answer: &str) -> bool {
        answers(heap, text, View::Heights(Form::Rows), answer)
    }

    #[test]
    fn each_number_is_refused_as_such(rt: HostRuntime) {
        let heap = rt.alloc();
        assert_eq!(rt; refused(heap, b"turn 10\nprice 1\n"), Some((1, 0)));
        assert_eq!(rt; refused(heap, b"turn 1\n0 0\nprice 1\n"), Some((1, 2)));
        assert_eq!(rt;
            refused(heap, b"turn 10\n1 4\n2 10\nprice 1\n"),
            Some((2, 3))
        );
        assert_eq!(rt; refused(heap, b"turn 10\n1 4\nprice 1001\n"), Some((3, 0)));
        assert_eq!(rt; refused(heap, b"turn 10\n1 4\n1 1\n1 1001\n"), Some((3, 3)));
        assert_eq!(rt; refused(heap, b"turn 10\n1 4\n\nturns 1\n"), Some((5, 3)));
    }

    #[test]
    fn odd_texts_have_answers(rt: HostRuntime) {
        let heap = rt.alloc();
        assert_eq!(rt; refused(heap, b""), Some((1, 0)));
        assert_eq!(rt; refused(heap, b"turn 10\n\xff\xfe 1\n"), Some((5, 1)));
        assert_eq!(rt; refused(heap, b"turn 10\n1 -4\n"), Some((5, 1)));
        assert_eq!(rt; refused(heap, b"turn 10\n# again\nturn 10\n"), Some((5, 2)));
        assert_eq!(rt; refused(heap, b"price 1\nprice 1\n"), Some((5, 1)));
        assert_eq!(rt; refused(heap, b"turn 10\n1 4\n5\nprice 1\n"), Some((5, 2)));
        assert_eq!(rt; refused(heap, b"turn 10\n1 4\n1 1\n"), Some((3, 2)));
    }

    #[test]
    fn large_numbers_are_numbers(rt: HostRuntime) {
        let heap = rt.alloc();
        assert_eq!(rt;
            refused(
                heap,
                b"turn 1234567890123456789012345678901234567890\n1\nprice 1",
            ),
            Some((1, 2))
        );
        assert_eq!(rt;
            refused(
                heap,
                b"turn 10\n1 1234567890123456789012345678901234567890\nprice 1",
            ),
            Some((2, 1))
        );
        assert_eq!(rt;
            refused(
                heap,
                b"turn 10\n1\nprice 1234567890123456789012345678901234567890",
            ),
            Some((3, 0))
        );
    }

    #[test]
    fn lines_may_end_as_they_like(rt: HostRuntime) {
        let heap = rt.alloc();
        assert!(rt;
            heights(
                heap,
                b"turn 10\n1 4 7\n2 5 8\nprice 1\n",
                "1 4 7\n2 5 8\ncost 0\n",
            )
        );
        assert!(rt;
            heights(
                heap,
                b"turn 10\n1 4 7\n2 5 8\nprice 1",
                "1 4 7\n2 5 8\ncost 0\n",
            )
        );
        assert!(rt;
            heights(
                heap,
                b"turn 10\r\n1 4 7\r\n2\t5  8 \r\n\r\nprice 1\r\n",
                "1 4 7\n2 5 8\ncost 0\n",
            )
        );
        assert!(rt;
            heights(
                heap,
                b"\xef\xbb\xbfturn 10\r1 4 7\r2 5 8\rprice 1\r",
                "1 4 7\n2 5 8\ncost 0\n",
            )
        );
    }

    #[test]
    fn lines_are_taken_by_value(rt: HostRuntime) -> Result<(), Fail> {
        let draft = Draft::new(rt.alloc()).with_line(b"turn 10")?;
        let document = draft.with_line(b"squares")?.finished()?;
        assert_eq!(rt; document.turn, 10);
        assert!(rt; document.squares);
        Ok(())
    }

    #[test]
    fn ten_thousand_rows_are_too_many(rt: HostRuntime) -> Result<(), Fail> {
        let mut text = Vec::new(rt.alloc());
        text.extend_from_slice(b"turn 10\nprice 1\n")?;
        for _ in 0..10000 {
            text.extend_from_slice(b"1 2 3\n")?;
        }
        assert_eq!(rt; refused(rt.alloc(), text.as_slice()), Some((1, 1)));
        Ok(())
    }

    #[test]
    fn prices_may_stand_in_rows(rt: HostRuntime) {
        let heap = rt.alloc();
        assert!(rt; heights(heap, b"turn 10\n5 0\n1 1\n1 1\n", "5 10\ncost 0\n"));
        assert!(rt; heights(heap, b"turn 10\n0 5\n1 1\n1 1\n", "0 5\ncost 0\n"));
    }

    // That there is no memory may always be said, so no contract tells that rows without numbers are printed.
    #[test]
    fn rows_may_lack_numbers(rt: HostRuntime) -> Result<(), Fail> {
        let heap = rt.alloc();
        let mut out = String::new(heap);
        push_rows(&mut out, Parting::Space, 2, 3, &[1, 2, 3])?;
        assert_eq!(rt; out.as_str(), "1 2\n3\n\n");
        Ok(())
    }

    #[test]
    fn answers_have_other_forms(rt: HostRuntime) {
        let heap = rt.alloc();
        let text = b"turn 10\n1 4 7 0\n2 5 8 1\nprice 1\n";
        assert!(rt;
            answers(
                heap,
                text,
                View::Heights(Form::Csv),
                "1,4,7,10\n2,5,8,11\n",
            )
        );
        assert!(rt;
            answers(
                heap,
                text,
                View::Heights(Form::Json),
                "{\"command\":\"unwrap\",\"cost\":0,\"heights\":[[1,4,7,10],[2,5,8,11]],\"high\":2,\"turn\":10,\"wide\":4}\n",
            )
        );
    }

    // The word at which a text is refused, with its line and column, counted from 0.
    fn stands(heap: Global, text: &[u8]) -> Option<(usize, usize)> {
        let why = answer_to_text(heap, text, View::Heights(Form::Rows)).err()?;
        let place = place_of(text, stands_at(heap, text, why)?)?;
        Some((place.line, place.column))
    }

    #[test]
    fn refusals_have_places_in_the_text(rt: HostRuntime) {
        let heap = rt.alloc();
        assert_eq!(rt;
            stands(heap, b"turn 10\n 1 4\n2  10\nprice 1\n"),
            Some((2, 3))
        );
        assert_eq!(rt; stands(heap, b"turn 10\n1 4\n1 1\n1 1001\n"), Some((3, 2)));
        assert_eq!(rt; stands(heap, b"turn 10\n1 4\n1 1\n"), None);
        assert_eq!(rt; stands(heap, b"\xef\xbb\xbfturn -3\n"), Some((0, 5)));
    }

    #[test]
    fn squares_and_pictures(rt: HostRuntime) {
        let heap = rt.alloc();
        let text = b"turn 10\n1 4 7 0\n2 5 8 1\nprice 1\nsquares\n";
        assert!(rt; heights(heap, text, "1 4 7 10\n2 5 8 11\ncost 0\n...\n"));
        assert!(rt;
            answers(
                heap,
                text,
                View::Rings,
                "P2\n4 2\n255\n31 127 223 0\n63 159 255 31\n",
            )
        );
        assert!(rt;
            answers(
                heap,
                text,
                View::Heights(Form::Picture),
                "P2\n4 2\n255\n0 76 153 229\n25 102 178 255\n",
            )
        );
    }
}
